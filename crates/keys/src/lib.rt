// Keys and elements of the two trades, their total orders, and the reasons for which a call is sent back.
#![tactic(auto)]

pub mod cut_ticket;
pub mod key;
pub mod piece_code;
pub mod plot_order;
pub mod refusal;
pub mod size_label;
pub mod text;
