//! Records of the log. A record counts if its gate is open and it is whole. A shut gate stands behind the last record,
//! and is on the disk before anything is written behind it.
ghost use Rattle.std.specs.Prelude.{◌≡◌, ◌≤◌, ◌+◌, ◌∷◌, ◌^◌, length, IfOk, MatchOption, Some, None};
ghost use Rattle.segment_log.specs.Records.{gate_text, magic, next_at, number_bytes, number_of, open_gate, record_body};
ghost use Rattle.segment_log.specs.Records.{shut_gate, zeros};

use byteorder::{ByteOrder, LittleEndian};
use std::alloc::{AllocError, Global};

/// How many bytes a gate has: as many as a disk writes at once, so that no other byte of the log is written with it.
pub const GATE_LEN: usize = 4096;

/// No log and no payload is longer.
pub const MAX_LOG_LEN: usize = 1 << 40;

/// The name of the format and its version, which each gate has at its bytes 8 to 23.
pub(crate) const MAGIC: [u8; 16] = [
    b'z', b'a', b'l', b'u', b'x', b'h', b'o', b'n', b'i', b' ', b'l', b'o', b'g', 0, 0, 1,
];

/// Returns the number in the first 8 bytes.
pub(crate) fn number_of(bytes: &[u8]) -> u64
    requires in_bounds { 8 ≤ length bytes.now }
    ensures { result ≡ number_of bytes.now }
{
    LittleEndian::read_u64(bytes)
}

/// Returns the bytes of a number.
pub(crate) fn number_bytes(number: u64) -> [u8; 8]
    ensures { result ≡ number_bytes number }
{
    number.to_le_bytes()
}

/// Returns the payload of the first record of a log, and what stands behind the record.
pub fn next_record(log: &[u8]) -> Option<(&[u8], &[u8])>
    ensures { MatchOption result
        (next_at 4096 log.now ≡ None)
        (λ r. next_at 4096 log.now ≡ Some (r.0.now, r.1.now)) }
{
    if log.len() < GATE_LEN || log[0] != 1 {
        return None;
    }
    let text = &log[GATE_LEN..];
    if text.len() < 8 {
        return None;
    }
    let len = number_of(text);
    let behind = &text[8..];
    if len > behind.len() as u64 {
        return None;
    }
    let (payload, rest) = behind.split_at(len as usize);
    Some((payload, rest))
}

/// Returns bytes that are 0.
pub(crate) fn zeros(alloc: Global, count: usize) -> Result<Vec<u8>, AllocError>
    ensures { IfOk result (λ bytes. bytes.items ≡ zeros count) }
{
    vec![in alloc; 0; count]
}

/// Returns what a commit writes behind the gate: the length of the payload, the payload, and the next gate, shut.
pub fn record_body(alloc: Global, payload: &[u8]) -> Result<Vec<u8>, AllocError>
    requires max_len { length payload.now ≤ 2 ^ 40 }
    ensures { IfOk result (λ bytes. bytes.items ≡ record_body payload.now) }
{
    let mut bytes = Vec::with_capacity(alloc, payload.len() + 8 + GATE_LEN)?;
    bytes.extend_from_slice(&number_bytes(payload.len() as u64))?;
    bytes.extend_from_slice(payload)?;
    bytes.extend_from_slice(&shut_gate(alloc)?)?;
    Ok(bytes)
}

/// Returns a gate: its first byte, and the name of the format at its bytes 8 to 23.
fn gate(alloc: Global, first: u8) -> Result<Vec<u8>, AllocError>
    ensures { IfOk result (λ bytes. bytes.items ≡ gate_text first) }
{
    let mut bytes = Vec::with_capacity(alloc, GATE_LEN)?;
    bytes.push(first)?;
    bytes.extend_from_slice(&zeros(alloc, 7)?)?;
    bytes.extend_from_slice(&MAGIC)?;
    bytes.extend_from_slice(&zeros(alloc, GATE_LEN - 24)?)?;
    Ok(bytes)
}

/// Returns an open gate. When it is written over a shut gate, the record after that gate counts.
pub fn open_gate(alloc: Global) -> Result<Vec<u8>, AllocError>
    ensures { IfOk result (λ bytes. bytes.items ≡ open_gate) }
{
    gate(alloc, 1)
}

/// Returns a gate that is shut: a log ends with one.
pub fn shut_gate(alloc: Global) -> Result<Vec<u8>, AllocError>
    ensures { IfOk result (λ bytes. bytes.items ≡ shut_gate) }
{
    gate(alloc, 0)
}
