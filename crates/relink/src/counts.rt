//! Counts of a meter, for the prover.

ghost use Rattle.relink.specs.Work.{AreSmall};

use ldmodel::meter::Meter;

/// For the prover: brings in that each count of a meter fits a u64.
pub(crate) fn counts_fit(meter: &Meter)
    ensures { AreSmall meter.now }
{
    let _counts = (
        meter.objects(),
        meter.names(),
        meter.pieces(),
        meter.fields(),
        meter.bytes(),
    );
}
