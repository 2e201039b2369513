ghost use Rattle.std.specs.Prelude.{◌≡◌, IfOk};

use flex_fields::Items;
use share_model::NoMemory;

/// The most items of a list of a message.
const MOST_ITEMS: usize = 4294967294;

/// The items of a list, unless they are more than a message can have.
pub fn items_of<T: Drop>(list: Vec<T>) -> Result<Items<T>, NoMemory>
    ensures { IfOk result (λ items. items ≡ list.items) }
{
    if list.len() > MOST_ITEMS {
        return Err(NoMemory);
    }
    Ok(Items::new(list))
}
