//! What is counted in a run of several services.

use arrayvec::ArrayVec;
use splice_switch::SwitchReport;

/// What became of the events of one service.
#[derive(Clone, Copy, Debug, PartialEq, Eq)]
pub struct ServiceEvents {
    /// The `DPI_PID_index` of the service.
    pub index: u16,
    /// Its `program_number`.
    pub program: u16,
    /// What its switch reports.
    pub switch: SwitchReport,
}

impl Default for ServiceEvents {
    /// No events, of no program.
    fn default() -> ServiceEvents {
        ServiceEvents {
            index: 0,
            program: 0,
            switch: SwitchReport::new(),
        }
    }
}

/// What a run of several services counted. Each count stops at the greatest u64.
#[derive(Clone, Debug, PartialEq, Eq, Drop)]
pub struct ServiceReport {
    /// The messages that were judged, of all services and of none.
    pub messages: u64,
    /// The multiple operations among them that were accepted.
    pub accepted: u64,
    /// The multiple operations among them that were refused.
    pub refused: u64,
    /// What became of the events of each service, in their order.
    pub services: ArrayVec<ServiceEvents, 8>,
}
