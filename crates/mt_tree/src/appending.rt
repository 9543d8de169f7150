ghost use Rattle.std.specs.Prelude.{◌≡◌, ◌++◌, OnOk, OnErr};
ghost use Rattle.std.specs.Fmt.{decimal, signed_decimal};

use crate::fault::NoMemory;
use std::alloc::Global;

/// Appends the bytes.
///
/// # Errors
/// `NoMemory`; the list is then as before.
pub fn append(bytes: &[u8], into: &mut Vec<u8>) -> Result<(), NoMemory>
    ensures text { OnOk result (into.new.items ≡ into.old.items ++ bytes.now) }
    ensures kept { OnErr result (into.new.items ≡ into.old.items) }
{
    match into.extend_from_slice(bytes) {
        Ok(()) => Ok(()),
        Err(_refused) => Err(NoMemory),
    }
}

/// Appends the number in decimal digits, without leading zeros, with `-` before a number below 0.
///
/// # Errors
/// `NoMemory`; the list is then as before.
pub fn append_number(alloc: Global, number: i64, into: &mut Vec<u8>) -> Result<(), NoMemory>
    ensures text { OnOk result (into.new.items ≡ into.old.items ++ signed_decimal number) }
    ensures kept { OnErr result (into.new.items ≡ into.old.items) }
{
    match number.to_string(alloc) {
        Ok(digits) => append(digits.as_bytes(), into),
        Err(_refused) => Err(NoMemory),
    }
}

/// Appends the count in decimal digits, without leading zeros.
///
/// # Errors
/// `NoMemory`; the list is then as before.
pub fn append_count(alloc: Global, count: u64, into: &mut Vec<u8>) -> Result<(), NoMemory>
    ensures text { OnOk result (into.new.items ≡ into.old.items ++ decimal count) }
    ensures kept { OnErr result (into.new.items ≡ into.old.items) }
{
    match count.to_string(alloc) {
        Ok(digits) => append(digits.as_bytes(), into),
        Err(_refused) => Err(NoMemory),
    }
}
