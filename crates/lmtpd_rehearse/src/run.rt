//! A rehearsal, from its reader to its writer.

ghost use Rattle.std.specs.Prelude.{◌≡◌, ◌⊎◌, [], ◌∷◌, length, IfOk, Err, false};
ghost use Rattle.std.specs.Arc.{arc_value};
ghost use Rattle.lmtpd_rehearse.specs.Mailboxes.{bytes_of_all, texts_of_mailboxes};
ghost use Rattle.lmtpd_rehearse.specs.Client.{IsOnlyOver, unseen};
ghost use Rattle.lmtpd_rehearse.specs.declared.client.OnlyClient.TheVariants as OnlyClient;
ghost use Rattle.lmtpd_output.specs.Output.{IsListed};
ghost use Rattle.lmtpd_rehearse.specs.Rehearsal.{IsRehearsed, IsHeld, IsSizeFor};

use super::client::OnlyClient;
use super::clock::FixedClock;
use super::ending::{Ending, Rehearsed};
use super::output::write_mailboxes;
use super::parts::{Mailbox, empty_mailboxes, open_gates, sizes};
use super::peer::StreamPeer;
use lmtp_house::{EndCause, HouseFault, Watched, has_failed, run_house};
use lmtp_text::Site;
use std::alloc::Global;
use std::io::{Read, Write};
use std::sync::{Arc, Wait};
use std::thread::Threads;

/// Runs a server of one lane at the site for one conversation, and then writes the mailboxes, each after the line
/// `mailbox NAME LENGTH`. The mailboxes are empty at the start and lie in memory, and each keeps those of its copies
/// that fit under its quota, if it has one: `quotas` has them in the site's order. Every message is of the given moment,
/// in seconds since 1970. All memory is taken first.
pub fn rehearse_run<R, W, H>(
    rt: H,
    alloc: Global,
    site: Arc<Site>,
    blocks: u32,
    quotas: Vec<Option<u64>>,
    moment: u32,
    reader: R,
    writer: W,
) -> Result<Rehearsed<R, W>, HouseFault>
where
    R: Read + Drop + Send + 'static,
    W: Write + Drop + Send + 'static,
    H: Threads + Wait + Copy + Send + 'static,
    requires quiet { (arc_value site).tells_busy ≡ false }
    ensures rehearses { IfOk result (λ rehearsed. IsRehearsed (arc_value site) quotas.items moment
        (record { unread = R.remaining reader; written = W.contents writer })
        (record { unread = R.remaining rehearsed.reader; written = W.contents rehearsed.writer }) rehearsed.ending) }
    ensures only_size { result ≡ Err HouseFault.Size → ¬ IsSizeFor (arc_value site) blocks (length quotas.items) }
    ensures size { ¬ IsSizeFor (arc_value site) blocks (length quotas.items)
        → (result ≡ Err HouseFault.Size) ⊎ (result ≡ Err HouseFault.Memory) }
{
    let peer = StreamPeer {
        reader,
        writer,
        reads: 0,
        failures: 0,
        bytes_read: 0,
        bytes_written: 0,
    };
    let conditions = Conditions {
        blocks,
        quotas,
        moment,
    };
    let held = hold(rt, alloc, site.clone()?, conditions, peer)?;
    let StreamPeer {
        reader,
        mut writer,
        ..
    } = held.peer;
    let cut = is_cut(&site, &held.mailboxes, &mut writer);
    let ending = Ending {
        end: held.end,
        faulty: held.faulty,
        cut,
    };
    Ok(Rehearsed {
        ending,
        reader,
        writer,
    })
}

/// What a conversation is held under.
#[derive(Drop)]
struct Conditions {
    blocks: u32,
    /// The bytes that each mailbox may hold, if there is a limit.
    quotas: Vec<Option<u64>>,
    /// The seconds since 1970 at each delivery.
    moment: u32,
}

/// A conversation that has ended, and the mailboxes after it.
#[derive(Drop)]
struct Held<P> {
    peer: P,
    end: EndCause,
    mailboxes: Vec<Mailbox>,
    /// Whether one of them failed.
    faulty: bool,
}

// Runs the server until its only client has left.
fn hold<R, W, H>(
    rt: H,
    alloc: Global,
    site: Arc<Site>,
    conditions: Conditions,
    peer: StreamPeer<R, W>,
) -> Result<Held<StreamPeer<R, W>>, HouseFault>
where
    R: Read + Drop + Send + 'static,
    W: Write + Drop + Send + 'static,
    H: Threads + Wait + Copy + Send + 'static,
    requires quiet { (arc_value site).tells_busy ≡ false }
    ensures held { IfOk result (λ held. IsHeld (arc_value site) conditions.quotas.items conditions.moment
        (record { unread = R.remaining peer.reader; written = W.contents peer.writer })
        (record { unread = R.remaining held.peer.reader; written = W.contents held.peer.writer })
        (record { mailboxes = held.mailboxes.items; faulty = held.faulty; end = held.end })) }
    ensures only_size { result ≡ Err HouseFault.Size
        → ¬ IsSizeFor (arc_value site) conditions.blocks (length conditions.quotas.items) }
    ensures size { ¬ IsSizeFor (arc_value site) conditions.blocks (length conditions.quotas.items)
        → (result ≡ Err HouseFault.Size) ⊎ (result ≡ Err HouseFault.Memory) }
{
    let count = site.box_count();
    let mailboxes = empty_mailboxes(alloc, &site, count)?;
    let gates = open_gates(alloc, count)?;
    let mut visits = Vec::with_capacity(alloc, 1)?;
    visits.push_reserved(Watched {
        inner: OnlyClient::Waiting(peer),
        observer: (),
    });
    let Conditions {
        blocks,
        quotas,
        moment,
    } = conditions;
    let clock = FixedClock { moment };
    let report = run_house(
        rt,
        alloc,
        site,
        sizes(blocks),
        visits,
        mailboxes,
        gates,
        quotas,
        clock,
    )?;
    let faulty = has_failed(&report.tallies);
    let (peer, end) = only_client(report.visits);
    Ok(Held {
        peer,
        end,
        mailboxes: report.spools,
        faulty,
    })
}

// Takes the client out of the list where it is the only one, and has left.
fn only_client<P: Drop>(mut clients: Vec<Watched<OnlyClient<P>, ()>>) -> (P, EndCause)
    requires { IsOnlyOver clients.items }
    ensures { clients.items ≡ unseen (OnlyClient.Over result.0 result.1) ∷ [] }
{
    match clients.pop() {
        Some(
            Watched {
                inner: OnlyClient::Over(peer, end),
                ..
            },
        ) => (peer, end),
        _ => unreachable!(),
    }
}

// Writes the mailboxes, also where a write of the replies has failed, and says whether a write fails.
fn is_cut<W: Write>(site: &Site, mailboxes: &[Mailbox], writer: &mut W) -> bool
    requires { length mailboxes.now ≡ length site.now.boxes }
    ensures { IsListed (texts_of_mailboxes site.now.boxes (bytes_of_all mailboxes.now))
        (W.contents writer.old) (W.contents writer.new) result }
{
    write_mailboxes(writer, site, mailboxes).is_err()
}
