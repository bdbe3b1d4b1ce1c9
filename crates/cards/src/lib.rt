// Cards: what a text becomes once it is read.
//
// `Card` holds a kind's name, an order's name, the starting words and main's block, and no card breaks a limit:
// `Card::new` answers the first limit that one would break. `Block` and `Statement` are the code as a tree.
#![tactic(auto)]

mod card;
mod extent;
mod lines;
mod make;
mod measure;
mod names;
mod section;
mod sections;
mod tree;

pub use card::Card;
pub use lines::{Access, Declaration, KindName, Level, OrderName};
pub use make::Limit;
pub use names::{Local, Pointer};
pub use section::Section;
pub use tree::{Block, Statement, Step};
