//! The node table: the arrays that an engine keeps, with how each is shown over its base, what is
//! kept of it, and how often it is held. Above it `pdl_pull` fills views, `pdl_push` assigns and
//! writes back, and `pdl_engine` makes arrays, cuts them, and lets them go.
#![tactic(auto)]

mod apart;
mod children;
mod copies;
mod descent;
mod faults;
mod holds;
mod laws;
mod layouts;
mod marked;
mod moves;
mod node;
mod origin;
mod relaid;
mod renewing;
mod table;
mod upward;
mod views;

pub use apart::Apart;
pub use faults::ViewFault;
pub use holds::{Hold, Holds, insert};
pub use laws::{renewed_row_laws, row_laws};
pub use layouts::layout;
pub use moves::{entry, placed};
pub use node::{Goal, Node, Shown};
pub use origin::{Layout, Origin};
pub use relaid::{Relaid, RelayFault};
pub use table::Table;
pub use upward::{goes_with, let_all, let_parent_up, remove_all};
pub use views::{root_node, view_node};
