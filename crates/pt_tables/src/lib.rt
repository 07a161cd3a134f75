//! The texts that commands write: the tables of the actuators, the log of histories, the lines of misses, and the margins
//! of a graph.
//!
//! Each text is built by functions that append one line; loops call them. A text is put line by line (`put_each_line`); of the log, which
//! is the longest, each line is put as it is made. Tables are defined in `specs/Tables.antt` of pt_semantics, the log in `specs/Log.antt` and
//! `specs/Platforms.antt`, misses in `specs/Misses.antt`, margins in `specs/Margins.antt`.
//!
//! Read first: `tables`, `tables_of_meaning` and `ActorTables`, then `put_log`, `miss_lines` and `margins`.
#![tactic(auto)]

mod actor_tables;
mod claim_end;
mod each_line;
mod held;
mod line;
mod lines;
mod margin_lines;
mod meaning;
mod miss;
mod names;
mod pen;
mod platforms;
mod putting;
mod reader;
mod table;
mod text;
mod turn_line;
mod turn_lists;
mod turns;
mod walk;

pub use actor_tables::{ActorTables, has_table};
pub use each_line::put_each_line;
pub use held::holds;
pub use lines::push_turn_line;
pub use margin_lines::margins;
pub use meaning::tables_of_meaning;
pub use miss::{miss_line, miss_lines};
pub use platforms::{platforms_hold, put_log};
pub use text::tables;
pub use turns::push_lists;
