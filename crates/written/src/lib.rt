// A text and its card determine each other.
#![tactic(auto)]

ghost use Rattle.loading.specs.Loading.{Loads};
ghost use Rattle.written.specs.Laws.{Answers, Laws};

use loading::{LoadRefusal, Slot};
use std::alloc::Global;

// Reads a text into a slot: the card whose written form it is, or a refusal that names its first offence.
pub fn load_card(slot: &mut Slot, heap: Global, text: &[u8]) -> Result<(), LoadRefusal>
    ensures loads { Loads text.now result slot.old slot.new }
    ensures written { Answers text.now result slot.new }
    ensures laws { Laws }
{
    slot.load(heap, text)
}
