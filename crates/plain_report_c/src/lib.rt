// The report by the plain count for C, which the bench times against `arb_report`; it promises what that does.
#![tactic(auto)]

ghost use Rattle.std.specs.Prelude.{◌≡◌};
ghost use Rattle.runs.specs.Reports.{reported};
ghost use Rattle.arb.specs.Packing.{packed};

use arb::pack;
use plain_report::report_plain;

// The report by the plain count.
#[unsafe(no_mangle)]
pub extern "C" fn arb_report_plain(
    words: &[u16],
    p: usize,
    agreed: &mut [u16],
    support: &mut [u16],
) -> u64
    ensures answer { result ≡ packed (reported words.now p agreed.old support.old).verdict }
    ensures agreed { agreed.new ≡ (reported words.now p agreed.old support.old).agreed_row }
    ensures support { support.new ≡ (reported words.now p agreed.old support.old).support_row }
{
    pack(report_plain(words, p, agreed, support))
}
