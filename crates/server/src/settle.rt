// What a batch or a cut does to every device's record once its segment is made.
ghost use Rattle.std.specs.Prelude.{◌≡◌, ltb, get_or};
ghost use Rattle.words.specs.Layout.{ITEM_KIND, SEGMENT};
ghost use Rattle.table.specs.Promise.{Each};
ghost use Rattle.delivery.specs.Deliver.{ItemReady};
ghost use Rattle.link.specs.Settle.{Settled};
ghost use Rattle.server.specs.Turn.{AllSound};

use link::settle::settle;
use words::extent::Extent;
use words::layout::{RECORD, RECORDS};
use words::list::word_at;

// On every record. Segments reach the devices numbered below `reach`.
pub fn settle_all(
    t: &mut [u64],
    segment: &[u64],
    counts: &[u64],
    reach: u64,
    crash: bool,
    extent: Extent,
)
    requires { AllSound t.old extent.devices extent.cells × ItemReady extent.devices extent.cells segment.now × (get_or segment.now ITEM_KIND 0 ≡ SEGMENT) }
    ensures { Each (λ d. Settled extent.devices extent.cells d (get_or counts.now d 0) (ltb d reach) crash segment.now) t.old t.new extent.devices }
{
    for d in 0..extent.devices {
        let a = RECORDS + RECORD * d;
        let e = a + RECORD;
        let count = word_at(counts, d);
        let reaches = (d as u64) < reach;
        settle(&mut t[a..e], segment, d, count, reaches, crash, extent);
    }
}
