// The end of all connections, by a crash.
ghost use Rattle.table.specs.Promise.{Each};
ghost use Rattle.link.specs.Ends.{Ended};
ghost use Rattle.table.specs.Known.{TableReady};

use link::ends::end_connection;
use words::extent::Extent;
use words::layout::{RECORD, RECORDS};

// Ends every connection and every request.
pub fn end_all(t: &mut [u64], extent: Extent)
    requires { TableReady t.old extent.devices extent.cells }
    ensures { Each (λ d. Ended extent.devices extent.cells) t.old t.new extent.devices }
{
    for d in 0..extent.devices {
        let a = RECORDS + RECORD * d;
        let e = a + RECORD;
        end_connection(&mut t[a..e], extent, 0);
    }
}
