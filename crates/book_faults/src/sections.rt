// The sections that are lists of items.
use book_model::Section;
use book_spec::Item;
use ecam_spec::limits;

/// A section that is a list of items: its key, what its items are, and how many it may have.
pub(crate) struct ItemList {
    pub(crate) section: Section,
    pub(crate) key: &'static str,
    pub(crate) item: Item,
    pub(crate) most: usize,
}

pub(crate) const PAGES: ItemList = ItemList {
    section: Section::Page,
    key: "page",
    item: Item::Page,
    most: limits::PAGES,
};

pub(crate) const PARAMS: ItemList = ItemList {
    section: Section::Param,
    key: "param",
    item: Item::Param,
    most: limits::PARAMETERS,
};

pub(crate) const TERMS: ItemList = ItemList {
    section: Section::Term,
    key: "term",
    item: Item::Term,
    most: limits::NAMED_TERMS,
};

/// The alerts of a book of version 1.
pub(crate) const FIRST_ALERTS: ItemList = ItemList {
    section: Section::Alert,
    key: "alert",
    item: Item::Alert,
    most: limits::ALERTS_OF_VERSION_1,
};

/// The alerts of a book of version 2.
pub(crate) const ALERTS: ItemList = ItemList {
    section: Section::Alert,
    key: "alert",
    item: Item::Alert,
    most: limits::ALERTS,
};

pub(crate) const MEMOS: ItemList = ItemList {
    section: Section::Memo,
    key: "memo",
    item: Item::Memo,
    most: limits::MEMOS,
};
