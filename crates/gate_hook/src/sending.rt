ghost use Rattle.std.specs.Prelude.{◌≡◌, IfErr, OnOk};
ghost use Rattle.std.specs.Io.KnownBytes.{Appends};
ghost use Rattle.gate_hook.specs.Sending.{IsCutOff};

use crate::fault::HookFault;
use std::io::Write;

/// Writes the text, part by part. If a write fails or takes no byte, the fault is `Write`, and it doesn't try again, an interrupted
/// write included; a part of the text may be written then.
pub fn send<W: Write>(writer: &mut W, text: &[u8]) -> Result<(), HookFault>
    ensures ok { OnOk result (Appends (W.contents writer.old) (W.contents writer.new) text.now) }
    ensures err { IfErr result (λ fault. (fault ≡ HookFault.Write)
        × IsCutOff text.now (W.contents writer.old) (W.contents writer.new)) }
{
    let mut sent = 0;
    while sent < text.len() {
        match writer.write(&text[sent..]) {
            Ok(0) | Err(_) => return Err(HookFault::Write),
            Ok(n) => sent += n,
        }
    }
    Ok(())
}
