//! Rows of commands, loadings and readings over the rules `Owning`.

mod loadings;
mod readings;
mod rows;
