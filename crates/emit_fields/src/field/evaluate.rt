//! The evaluation of a relocation (x86-64 psABI, "Relocation Types").

ghost use Rattle.std.specs.Prelude.{◌≡◌, ◌≢◌, ◌≤◌, ◌&&◌, IfOk, int_le, length};
ghost use Rattle.byteorder.specs.Endian.{little_bytes};
ghost use Rattle.elfobj.specs.Raised.{raised};
ghost use Rattle.elfobj.specs.RelocationKinds.{width};
ghost use Rattle.emit_fields.specs.Fields.{relocation_value, fits, field_of};

use super::{Field, Overflow};
use byteorder::{ByteOrder, LittleEndian};
use elfobj::relocation::{Relocation, RelocationKind};
use elfobj::{Count, Meter};

/// The value modulo 2^64: S + A, or S + A - P for PC-relative kinds.
fn value(relocation: &Relocation, s: u64, p: u64) -> u64
    ensures { result ≡ relocation_value relocation.now s p }
{
    let absolute = s.wrapping_add(relocation.addend.cast_unsigned());
    match relocation.kind {
        RelocationKind::None => 0,
        RelocationKind::Abs64
        | RelocationKind::Abs32
        | RelocationKind::Abs32Signed
        | RelocationKind::Abs16
        | RelocationKind::Abs8 => absolute,
        RelocationKind::Pc64
        | RelocationKind::Pc32
        | RelocationKind::Plt32
        | RelocationKind::Pc16
        | RelocationKind::Pc8 => absolute.wrapping_sub(p),
    }
}

/// The number of bytes of the field.
#[tactic(auto, using(crate::proofs::FieldBytes::width_at_most))]
fn width(kind: RelocationKind) -> usize
    ensures width { result ≡ width kind }
    ensures most { result ≤ 8 }
{
    kind.width() as usize
}

/// Whether a number is in the range from `low` to `high`.
fn is_within(number: i64, low: i64, high: i64) -> bool
    ensures { result ≡ (int_le low number && int_le number high) }
{
    low <= number && number <= high
}

/// Whether the value is in the range of the kind.
fn fits(kind: RelocationKind, value: u64) -> bool
    ensures { result ≡ fits kind value }
{
    let signed = value.cast_signed();
    match kind {
        RelocationKind::None | RelocationKind::Abs64 | RelocationKind::Pc64 => true,
        RelocationKind::Abs32 => value <= u64::from(u32::MAX),
        RelocationKind::Abs32Signed | RelocationKind::Pc32 | RelocationKind::Plt32 => {
            is_within(signed, i64::from(i32::MIN), i64::from(i32::MAX))
        }
        RelocationKind::Abs16 => is_within(signed, i64::from(i16::MIN), i64::from(u16::MAX)),
        RelocationKind::Pc16 => is_within(signed, i64::from(i16::MIN), i64::from(i16::MAX)),
        RelocationKind::Abs8 => is_within(signed, i64::from(i8::MIN), i64::from(u8::MAX)),
        RelocationKind::Pc8 => is_within(signed, i64::from(i8::MIN), i64::from(i8::MAX)),
    }
}

/// The field with the low bytes of a value.
#[tactic(auto, using(crate::proofs::FieldBytes::take_little_bytes))]
fn cut(kind: RelocationKind, value: u64) -> Field
    ensures { result ≡ little_bytes (width kind) value }
{
    let mut bytes = [0; 8];
    LittleEndian::write_u64(&mut bytes, value);
    Field {
        bytes,
        width: width(kind),
    }
}

/// The field of a relocation at address `p` (P) against a symbol of value `s` (S), or the value if it is out of range.
/// It counts one relocation. `NONE`, which has no field, must not be passed.
pub fn field(relocation: &Relocation, s: u64, p: u64, meter: &mut Meter) -> Result<Field, Overflow>
    requires { relocation.now.kind ≢ RelocationKind.None }
    ensures field { result ≡ field_of relocation.now s p }
    ensures width { IfOk result (λ bytes. length bytes ≡ width relocation.now.kind) }
    ensures counted { meter.new ≡ raised meter.old Count.Fields 1 }
{
    meter.raise(Count::Fields, 1);
    let value = value(relocation, s, p);
    if fits(relocation.kind, value) {
        Ok(cut(relocation.kind, value))
    } else {
        Err(Overflow { value })
    }
}
