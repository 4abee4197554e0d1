use bsv_design::{Design, Schedule};

/// A design with its schedule, as it is run.
#[derive(Drop)]
pub(crate) struct ScheduledDesign {
    pub(crate) design: Design,
    pub(crate) schedule: Schedule,
}
