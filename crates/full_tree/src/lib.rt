//! Full Steiner trees of terminals, as codes: which codes name a tree, of which straight pieces it
//! consists, how long it is, which trees pass, and in which order trees are listed.
#![tactic(auto)]

mod code;
mod embedding;
mod form;
mod length_laws;
mod membership;
mod order;
mod order_laws;
mod passing;
mod pieces;
mod places;
mod see;
mod spine;
mod station;
mod straight;
mod way;
mod word;

pub use code::{Tree, TreeCode, TreeList};
pub use embedding::embed;
pub use form::{are_level, go_right, goes_forward, in_form, is_on_short_leg, lie_in_turn};
pub use length_laws::lengths_are_within_the_grid;
pub use membership::{member, member_count, members};
pub use order::{code_order, tree_order};
pub use order_laws::{code_order_is_total, file_order_is_total};
pub use passing::{keeps_up_to, passes};
pub use pieces::{foot, piece, piece_count, tree_length};
pub use places::Places;
pub use see::point_at;
pub use spine::gap;
pub use station::{Station, Stations};
pub use straight::Piece;
pub use way::Way;
pub use word::word_of;
