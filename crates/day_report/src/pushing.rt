//! The functions that add an optional item to a list.
ghost use Rattle.std.specs.Prelude.{◌≡◌, ◌++◌, ◌<◌, IsOk, None, OnOk, option_to_list, vec_capacity, vec_len};

use std::alloc::AllocError;

/// Adds the item, unless it is `None`, at the end of the list.
pub(crate) fn push_some<T: Copy + Drop>(
    items: &mut Vec<T>,
    item: Option<T>,
) -> Result<(), AllocError>
    ensures pushed { OnOk result (items.new.items ≡ items.old.items ++ option_to_list item) }
    ensures none { item ≡ None → IsOk result }
{
    if let Some(item) = item {
        items.push(item)?;
    }
    Ok(())
}

/// Adds the item, unless it is `None`, at the end of the list, which must have room for it.
pub(crate) fn push_ready<T: Copy + Drop>(items: &mut Vec<T>, item: Option<T>)
    requires { vec_len items.old < vec_capacity items.old }
    ensures { items.new.items ≡ items.old.items ++ option_to_list item }
{
    if let Some(item) = item {
        items.push_reserved(item);
    }
}
