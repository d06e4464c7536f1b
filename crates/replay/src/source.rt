//! Where the bytes of files come from that replies give.

ghost use Rattle.std.specs.Prelude.{◌≡◌, ◌<◌, ◌≤◌, [], length, OnOk, OnErr, IfErr};
ghost use Rattle.std.specs.Io.KnownBytes.{Appends};
ghost use Rattle.devices.specs.Devices.{CanFail, CountsBy, AppendsPrefix};
ghost use Rattle.captures.specs.Passes.{writer_failures, IsWriteOrMemory};
ghost use Rattle.paths.specs.Reference.{file_of};
ghost use Rattle.paths.specs.Snapshots.{max_time};
ghost use Rattle.responses.specs.Reference.{record_text};
ghost use Rattle.replay.specs.Backs.{response_record};

use crate::ReplayFault;
use crate::back::find_page;
use crate::server::Server;
use devices::Output;
use page_cache::PageCache;
use paths::Tree;
use responses::{HeadRenderer, Slip, write_record};
use std::io::Write;
use std::sync::{Mutex, Wait};

/// Writes the reply that gives a file these bytes, by the slip of the answer to HEAD.
fn give_file<F: Tree, W: Write>(
    heads: &mut HeadRenderer,
    slip: &Slip<F>,
    bytes: &[u8],
    writer: &mut Output<W>,
) -> Result<(), ReplayFault>
    requires date { slip.now.date ≤ max_time }
    requires failures { CanFail writer.old }
    ensures written { OnOk result (Appends writer.old.bytes writer.new.bytes
        (record_text (response_record F.files slip.now bytes.now))) }
    ensures part { OnErr result (AppendsPrefix writer.old.bytes writer.new.bytes
        (record_text (response_record F.files slip.now bytes.now))) }
    ensures failures { CountsBy writer_failures writer.old.failures writer.new.failures result }
    ensures own { IfErr result IsWriteOrMemory }
{
    heads.render(slip)?;
    let body: &[u8] = if slip.head { &[] } else { bytes };
    write_record(writer, slip.number, slip.conn, heads.as_slice(), body)?;
    Ok(())
}

/// Where one thread takes the bytes of files from, reply after reply.
pub(crate) trait Source<F: Tree> {
    /// Writes the reply that gives a file, by the slip of the answer to HEAD.
    fn give<W: Write>(
        &mut self,
        server: &Server<'_, F>,
        heads: &mut HeadRenderer,
        slip: &Slip<F>,
        file: usize,
        writer: &mut Output<W>,
    ) -> Result<(), ReplayFault>
        requires slip { (file < length F.files) × (slip.now.date ≤ max_time) }
        requires failures { CanFail writer.old }
        ensures written { OnOk result (Appends writer.old.bytes writer.new.bytes
            (record_text (response_record F.files slip.now (file_of F.files file).bytes))) }
        ensures part { OnErr result (AppendsPrefix writer.old.bytes writer.new.bytes
            (record_text (response_record F.files slip.now (file_of F.files file).bytes))) }
        ensures failures { CountsBy writer_failures writer.old.failures writer.new.failures result }
        ensures own { IfErr result IsWriteOrMemory };
}

/// The bytes go to the writer as they are in the snapshot.
#[derive(Drop)]
pub(crate) struct FromSnapshot;

impl<F: Tree> Source<F> for FromSnapshot {
    fn give<W: Write>(
        &mut self,
        server: &Server<'_, F>,
        heads: &mut HeadRenderer,
        slip: &Slip<F>,
        file: usize,
        writer: &mut Output<W>,
    ) -> Result<(), ReplayFault> {
        give_file::<F, W>(heads, slip, server.snapshot.bytes(file), writer)
    }
}

/// The bytes come from the pages of a cache.
#[derive(Drop)]
pub(crate) struct FromCache<'a, F: Tree, T: Wait> {
    pub rt: &'a T,
    pub cache: &'a Mutex<PageCache<F>>,
}

impl<'a, F: Tree, T: Wait> Source<F> for FromCache<'a, F, T> {
    fn give<W: Write>(
        &mut self,
        server: &Server<'_, F>,
        heads: &mut HeadRenderer,
        slip: &Slip<F>,
        file: usize,
        writer: &mut Output<W>,
    ) -> Result<(), ReplayFault> {
        let page = find_page(self.rt, server.alloc, server.snapshot, self.cache, file)?;
        give_file::<F, W>(heads, slip, page.body(), writer)
    }
}
