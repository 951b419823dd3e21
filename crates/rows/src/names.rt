//! The faults of the library, by the names that rows have for them.

use segment_cli::SessionFault;

/// Returns why a session or a migration fails.
pub fn fault_name(fault: SessionFault) -> &'static str {
    match fault {
        SessionFault::Image(class) => class.name(),
        SessionFault::BadSize => "fault BadSize",
        SessionFault::RegionTooSmall => "fault RegionTooSmall",
        SessionFault::OutOfMemory(_) => "fault OutOfMemory",
        SessionFault::ReadFault => "fault ReadFault",
        SessionFault::WriteFault => "fault WriteFault",
        SessionFault::ScriptTooLong => "fault ScriptTooLong",
    }
}
