//! The items that a pattern shows.

ghost use Rattle.std.specs.Prelude.{◌≡◌, ◌++◌, map, OnOk, IfOk};
ghost use Rattle.pl_text.specs.Formatted.{characters_of as characters_in, item_list, items_of as items_in};

use crate::cells::byte_of;
use crate::displayed::is_characters;
use pl_array::Arr;
use pl_base::{NoMemory, Text};
use std::alloc::Global;

/// An item: the characters of an argument, or a cell of one.
#[derive(Debug, Drop)]
pub enum Item {
    Characters(Text),
    Number(i64),
}

/// The characters of an array, by columns.
pub fn characters_of(alloc: Global, a: &Arr) -> Result<Vec<u8>, NoMemory>
    ensures { IfOk result (λ bytes. bytes.items ≡ characters_in a.now) }
{
    let bytes: Vec<u8> = a.cells().iter().map(|cell| byte_of(*cell)).collect(alloc)?;
    Ok(bytes)
}

/// Adds the cells of an argument.
fn push_numbers(items: &mut Vec<Item>, cells: &[i64]) -> Result<(), NoMemory>
    ensures { OnOk result (items.new.items ≡ items.old.items ++ map (λ z. Item.Number z) cells.now) }
{
    for cell in cells {
        items.push(Item::Number(*cell))?;
    }
    Ok(())
}

/// Adds the items of an argument.
fn push_items(alloc: Global, items: &mut Vec<Item>, a: &Arr) -> Result<(), NoMemory>
    ensures { OnOk result (items.new.items ≡ items.old.items ++ item_list a.now) }
{
    if is_characters(a) {
        let bytes = characters_of(alloc, a)?;
        items.push(Item::Characters(Text::from_vec(bytes)))?;
        return Ok(());
    }
    push_numbers(items, a.cells())
}

/// The items of all arguments.
pub fn items_of(alloc: Global, args: &[Arr]) -> Result<Vec<Item>, NoMemory>
    ensures { IfOk result (λ items. items.items ≡ items_in args.now) }
{
    let mut items = Vec::new(alloc);
    for a in args {
        push_items(alloc, &mut items, a)?;
    }
    Ok(items)
}
