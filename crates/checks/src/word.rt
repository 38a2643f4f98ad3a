// The word that a call in C returns for a refusal: its number, and its place.
ghost use Rattle.std.specs.Prelude.{◌≡◌};
ghost use Rattle.checks.specs.FaultNumbers;
ghost use Rattle.checks.specs.Word;

use super::fault::{Fault, Item};
use super::refusal;

// where each part begins, and how many of it there are
const ITEM_UNIT: u64 = 65536;

const OWNER_UNIT: u64 = 16777216;

const INDEX_UNIT: u64 = 4294967296;

const OWNERS: u64 = 256;

const INDICES: u64 = 4294967296;

// The number of an item.
pub fn item_number(item: Item) -> u64
    ensures { result ≡ FaultNumbers.item item }
{
    item as u64
}

// The word of a fault: bits 0 to 15 are 256 plus its number, bits 16 to 23 the item, 24 to 31 the owner, 32 to 63 the index.
pub fn word(fault: Fault) -> u64
    ensures { result ≡ Word.word fault }
{
    let number = fault.number % refusal::NUMBERS_BELOW;
    let place = fault.place;
    let which = place.item;
    let item = item_number(which);
    let owner = place.owner % OWNERS;
    let index = place.index % INDICES;
    refusal::NUMBERS_BELOW + number + item * ITEM_UNIT + owner * OWNER_UNIT + index * INDEX_UNIT
}
