//! In which style the items of a trace are written.

ghost use Rattle.std.specs.Prelude.{◌≡◌, IfOk};
ghost use Rattle.trace_view.specs.ItemStyles.{styled_item};

use crate::chrome::chrome_item;
use crate::named_lines::named_item;
use std::alloc::{AllocError, Global};
use trace_format::Item;

/// In which style the items of a trace are written.
#[derive(Clone, Copy, PartialEq, Eq)]
pub enum ItemStyle {
    /// A line for each event and for the end mark, with names.
    Names,
    /// The Trace Event Format, an array of JSON with an object for each mark of an event.
    Chrome,
}

/// The text of an item in this style.
pub(crate) fn item_text(alloc: Global, style: ItemStyle, item: &Item) -> Result<Vec<u8>, AllocError>
    ensures { IfOk result (λ text. text.items ≡ styled_item style item.now) }
{
    match style {
        ItemStyle::Names => named_item(alloc, item),
        ItemStyle::Chrome => chrome_item(alloc, item),
    }
}
