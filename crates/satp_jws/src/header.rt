ghost use Rattle.std.specs.Prelude.{◌≡◌, ◌≢◌, None, Some, MatchResult, option_map};
ghost use Rattle.serde_json.specs.View.{view};
ghost use Rattle.satp_jws.specs.Faults.{algorithm_of, data_fault, has_critical, header_fault, json_of};
ghost use Rattle.satp_jws.specs.declared.fault.JwsFault.TheVariants.{Header, Memory};

use crate::fault::JwsFault;
use serde_json::Value;
use std::alloc::Global;

/// Whether a header is a JSON object that names HS256 and no extension (RFC 7515, sections 4.1.1 and 4.1.11). Where a
/// name is repeated, the last member counts.
pub fn check_header(alloc: Global, header: &[u8]) -> Result<(), JwsFault>
    ensures { MatchResult result
        (λ _. header_fault header.now ≡ None)
        (λ fault. fault ≢ Memory → header_fault header.now ≡ Some fault) }
{
    let value = header_value(alloc, header)?;
    check_value(&value)
}

/// The JSON value that a header is.
fn header_value(alloc: Global, header: &[u8]) -> Result<Value, JwsFault>
    ensures { MatchResult result
        (λ value. json_of header.now ≡ Some (view value))
        (λ fault. fault ≢ Memory → (fault ≡ Header) × (json_of header.now ≡ None)) }
{
    match Value::from_slice(alloc, header) {
        Ok(value) => Ok(value),
        Err(error) => {
            if error.is_memory() {
                Err(JwsFault::Memory)
            } else {
                Err(JwsFault::Header)
            }
        }
    }
}

fn check_value(value: &Value) -> Result<(), JwsFault>
    ensures { MatchResult result
        (λ _. data_fault (Some (view value.now)) ≡ None)
        (λ fault. data_fault (Some (view value.now)) ≡ Some fault) }
{
    let Some(algorithm) = algorithm_of(value) else {
        return Err(JwsFault::Header);
    };
    if algorithm != "HS256" {
        return Err(JwsFault::Algorithm);
    }
    if has_critical(value) {
        return Err(JwsFault::Critical);
    }
    Ok(())
}

fn algorithm_of(value: &Value) -> Option<&str>
    ensures { option_map (λ name. name.now) result ≡ algorithm_of (view value.now) }
{
    value.get("alg")?.as_str()
}

fn has_critical(value: &Value) -> bool
    ensures { result ≡ has_critical (view value.now) }
{
    value.get("crit").is_some()
}
