//! What a file under the name of a log is: a log of this crate, which has records or none, or a file of somebody else,
//! which nobody touches.
ghost use Rattle.std.specs.Prelude.{◌≡◌, ◌≤◌, length, Decides, EachIndex, slice_index};
ghost use Rattle.segment_log.specs.LogKinds.{BeginsRecord, HasMagic, HasNothingBehind, HasRecord, record_start};
ghost use Rattle.segment_log.specs.LogKinds.{IsOurs, IsUnnamedLog, TellsKind};
ghost use Rattle.segment_log.specs.LogKindLaws.{CommitKeepsName, CommittedHasRecords, GateWritesKeepName};
ghost use Rattle.segment_log.specs.LogKindLaws.{GatesBeginLogs, KindsTellRecords, NamedLogsAreOurs, NoGateIsForeign};
ghost use Rattle.segment_log.specs.LogKindLaws.{WritesBehindKeepName};
ghost use Rattle.segment_log.specs.Records.{zeros};

use crate::records::{GATE_LEN, MAGIC, number_of};
use crate::tags::tag_of;

/// How many bytes at its beginning tell a log: its first gate, and a record up to the end of its tag.
pub const HEAD_LEN: usize = 4144;

/// What a file under the name of a log is.
#[derive(Clone, Copy, Debug, PartialEq, Eq)]
pub enum LogKind {
    /// The file is no log of this crate. It belongs to somebody else.
    Foreign,
    /// The file is a log without a record.
    Empty,
    /// The file is a log with a record at least.
    Records,
}

/// Returns true if the first gate has the name of the format and its version.
fn has_magic(head: &[u8]) -> bool
    requires in_bounds { 4096 ≤ length head.now }
    ensures { Decides result (HasMagic head.now) }
{
    head[8..24] == MAGIC[..]
}

/// Returns true if each byte is 0.
fn has_zeros_alone(bytes: &[u8]) -> bool
    ensures { Decides result (EachIndex bytes.now (λ k. slice_index bytes.now k ≡ 0)) }
{
    bytes.iter().all(|byte| *byte == 0)
}

/// Returns true if the bytes are as many zeros.
fn are_zeros(bytes: &[u8]) -> bool
    ensures { Decides result (bytes.now ≡ zeros (length bytes.now)) }
{
    has_zeros_alone(bytes)
}

/// Returns what stands behind the first gate, up to the end of a tag.
fn record_start(head: &[u8]) -> &[u8]
    requires in_bounds { 4096 ≤ length head.now }
    ensures { result.now ≡ record_start head.now }
{
    &head[GATE_LEN..HEAD_LEN.min(head.len())]
}

/// Returns true if a record begins behind the first gate.
fn begins_record(head: &[u8]) -> bool
    requires in_bounds { 4096 ≤ length head.now }
    ensures { Decides result (BeginsRecord head.now) }
{
    let start = record_start(head);
    start.len() >= 8 && tag_of(&start[8..]).len() == 16
}

/// Returns true if the first gate is shut, and zeros stand behind it.
fn has_nothing_behind(head: &[u8]) -> bool
    requires in_bounds { 4096 ≤ length head.now }
    ensures { Decides result (HasNothingBehind head.now) }
{
    head[0] == 0 && are_zeros(record_start(head))
}

/// Returns true if a file is a log of version 0.9, whose gates have no name.
fn is_unnamed_log(head: &[u8], len: u64) -> bool
    requires in_bounds { 4096 ≤ length head.now }
    ensures { Decides result (IsUnnamedLog head.now len) }
{
    len % 4096 == 0
        && are_zeros(&head[1..GATE_LEN])
        && (begins_record(head) || has_nothing_behind(head))
}

/// Returns true if a file is a log of this crate.
fn is_ours(head: &[u8], len: u64) -> bool
    ensures { Decides result (IsOurs head.now len) }
{
    if len < 4096 || (head.len() as u64) < len.min(4144) || head[0] > 1 {
        return false;
    }
    has_magic(head) || is_unnamed_log(head, len)
}

/// Returns true if the first gate is open, and the record behind it lies within the log.
fn has_record(head: &[u8], len: u64) -> bool
    requires in_bounds { 4104 ≤ len → 4104 ≤ length head.now }
    ensures { Decides result (HasRecord head.now len) }
{
    if len < 4104 {
        return false;
    }
    head[0] == 1 && number_of(&head[GATE_LEN..]) <= len - 4104
}

/// Tells what a file under the name of a log is, by its first 4144 bytes, or all if it has fewer, and by its length. If
/// some of these bytes are not given, the answer is `Foreign`.
pub fn log_kind(head: &[u8], len: u64) -> LogKind
    ensures { TellsKind head.now len result }
{
    if !is_ours(head, len) {
        return LogKind::Foreign;
    }
    if has_record(head, len) {
        LogKind::Records
    } else {
        LogKind::Empty
    }
}

/// States that the kind of each file says whether a reader finds a record.
pub fn kinds_tell_records()
    ensures { KindsTellRecords }
{}

/// States that a file that does not begin with a gate, as an empty file, belongs to somebody else.
pub fn no_gate_is_foreign()
    ensures { NoGateIsForeign }
{}

/// States that a shut gate is a log without a record, and that an open gate with a whole record is a log with records.
pub fn gates_begin_logs()
    ensures { GatesBeginLogs }
{}

/// States that each log with the name of the format is a log of this crate.
pub fn named_logs_are_ours()
    ensures { NamedLogsAreOurs }
{}

/// States that a log keeps its name after a write behind its first gate that a crash cuts short.
pub fn writes_behind_keep_name()
    ensures { WritesBehindKeepName }
{}

/// States that a log keeps its name after a crash at any moment of a commit at which its first gate is not written.
pub fn commit_keeps_name()
    ensures { CommitKeepsName }
{}

/// States that a log keeps its name while its first gate is written, if each byte is the old one or the new one.
pub fn gate_writes_keep_name()
    ensures { GateWritesKeepName }
{}

/// States that a log with the name of the format has records after a commit.
pub fn committed_has_records()
    ensures { CommittedHasRecords }
{}
