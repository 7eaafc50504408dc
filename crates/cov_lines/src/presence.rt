// On which choices a line is.
ghost use Rattle.std.specs.Prelude.{◌≡◌, ◌<◌, true, length, IfOk};
ghost use Rattle.cov_lines.specs.Acting.{Acts};
ghost use Rattle.cov_lines.specs.Replies.{entry_line, presence_reply, target_of};
ghost use Rattle.cov_lines.specs.Step.{presence_told};
ghost use Rattle.cov_vis.specs.Listings.{has_options_below};

use crate::state::ServerState;
use cov_base::{LineNo, Memory, Text, Texts};
use cov_codes::Stop;
use cov_expr::Options;
use cov_script::{Target, reply_where, where_line, whole};
use cov_vis::{Child, Listing, ListingEntry};
use std::alloc::Global;

impl ServerState {
    /// Tells the one reduced listing of the choices on which a line is, its file there or not.
    #[tactic(auto, unfolding(crate::specs::Step::presence_told))]
    pub(crate) fn presence(&self, line: LineNo) -> Result<Text, Stop>
        ensures { Acts (presence_told self.now.state line) self.now.state self.now.state result }
    {
        let listing = self.engine.presence(line)?;
        Ok(presence_reply(self.alloc, self.engine.options(), &listing)?)
    }
}

fn presence_reply(alloc: Global, options: &Options, listing: &Listing) -> Result<Text, Memory>
    requires { has_options_below (length options.now.names) listing.now ≡ true }
    ensures { IfOk result (λ text. text ≡ presence_reply options.now.names listing.now) }
{
    let entries = listing.entries().as_slice();
    let first = reply_where(alloc, entries.len() as u64, target_of(listing.root()))?;
    let mut lines = Texts::new(alloc);
    let mut ahead = entries;
    let mut index = 0;
    'entries: while let [entry, rest @ ..] = ahead {
        lines.push(entry_line(alloc, index, options, entry)?)?;
        ahead = rest;
        index += 1;
    }
    whole(&first, &lines)
}

fn entry_line(
    alloc: Global,
    index: u64,
    options: &Options,
    entry: &ListingEntry,
) -> Result<Text, Memory>
    requires { entry.now.option < length options.now.names }
    ensures { IfOk result (λ text. text ≡ entry_line options.now.names index entry.now) }
{
    let off = target_of(entry.off);
    let on = target_of(entry.on);
    where_line(alloc, index, options, entry.option, off, on)
}

// Where a side of an entry leads, as it is told.
fn target_of(child: Child) -> Target
    ensures { result ≡ target_of child }
{
    match child {
        Child::F => Target::F,
        Child::T => Target::T,
        Child::At(index) => Target::At(index),
    }
}
