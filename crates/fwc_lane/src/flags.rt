// Lists that are kept from moment to moment, with what turned in them.
ghost use Rattle.std.specs.Prelude.{◌≡◌, ◌<◌, ◌||◌, false, not, None, length, slice_set, slice_index_or};
ghost use Rattle.std.specs.Option.{option_eq};
ghost use Rattle.std.specs.Ordering.{int_eq};

/// Notes a flag, and answers whether it turned.
pub fn set_flag(flags: &mut Vec<bool>, place: usize, flag: bool) -> bool
    requires { place < length flags.old.items }
    ensures items { flags.new.items ≡ slice_set flags.old.items place flag }
    ensures kept { result ≡ false → flags.new.items ≡ flags.old.items }
{
    let was = flags[place];
    flags[place] = flag;
    flag != was
}

/// Notes a value, and answers whether it is another.
pub fn set_value(values: &mut Vec<Option<i64>>, place: usize, value: Option<i64>) -> bool
    requires { place < length values.old.items }
    ensures items { values.new.items ≡ slice_set values.old.items place value }
    ensures turned { result ≡ not (option_eq int_eq value
        (slice_index_or values.old.items place None)) }
    ensures kept { result ≡ false → values.new.items ≡ values.old.items }
{
    let was = values[place];
    values[place] = value;
    value != was
}

/// Whether one of two things is so.
pub fn is_either(one: bool, other: bool) -> bool
    ensures { result ≡ (one || other) }
{
    one || other
}
