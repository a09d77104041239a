//! The typing of what declares and drops: ordinal types, base relvars with their constraints, views, kept views, histories, logs,
//! and database constraints.
#![tactic(auto)]

mod constraints;
mod drops;
mod histories;
mod kept;
mod lists;
mod logs;
mod names;
mod nodes;
mod ordinals;
mod references;
mod relvars;
mod rules;
mod views;

pub use drops::type_drop;
pub use histories::type_history;
pub use kept::type_kept;
pub use logs::type_log;
pub use ordinals::type_ordinal;
pub use relvars::type_relvar;
pub use rules::{type_rule, type_rule_drop};
pub use views::type_view;
