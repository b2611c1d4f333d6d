// Many like items of a book.
use std::alloc::Global;
use std::ops::Range;
use std::test::Fail;

// Puts behind a book an item for each number, which stands in the place of the item's number sign.
pub(crate) fn put_items(
    alloc: Global,
    book: &mut String,
    numbers: Range<u16>,
    item: &str,
) -> Result<(), Fail> {
    for number in numbers {
        let number = format!(in alloc; "{number}")?;
        let item = item.replace(alloc, "#", number.as_str())?;
        book.push_str(item.as_str())?;
    }
    Ok(())
}
