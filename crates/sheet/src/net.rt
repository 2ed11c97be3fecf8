// The plain record of a net: its terminals by id, and its plan, absent while the sheet is open.
use audit::table::Table;
use planner::plan::Plan;

#[derive(Clone, Copy)]
pub struct Net {
    pub(crate) table: Table,
    pub(crate) plan: Option<Plan>,
}
