//! What a stop leaves.

ghost use Rattle.std.specs.Prelude.{◌≡◌, ◌≤◌, ◌<◌, ◌⊎◌, ◌%◌, ◌==◌, if◌then◌else◌, ℕ, length, drop, IfOk, IfErr, OnOk};
ghost use Rattle.disk.specs.State.{may_leave, IsAtRest};
ghost use Rattle.mem_disk.specs.Tables.{Among};
ghost use Rattle.mem_disk.specs.Loose.{MayHold};
ghost use Rattle.mem_disk.specs.States.{state_with};
ghost use Rattle.mem_disk.specs.Left.{EachOf, IsPicked, IsTorn};
ghost use Rattle.mem_disk.specs.Picks.{words_left, next_word, binding_by, after_name, byte_by, after_node, words_after, PicksBinding, PicksBytes, PicksNode, PickInTurn, ArePickedBy};
ghost use Rattle.mem_disk.specs.Disks.{state_of};
ghost use Rattle.mem_disk.specs.declared.fuse.Fuse.TheVariants as plan;

use crate::MemDisk;
use crate::call::Call;
use crate::fuse::Fuse;
use crate::held::Held;
use crate::left::{copies_of, left_names};
use crate::name::Name;
use crate::names::Names;
use crate::node::Node;
use disk::{Binding, Fault};
use std::alloc::{AllocError, Global};

/// The words that decide the open choices, in turn.
#[derive(Drop)]
struct Picks<'a> {
    words: &'a [u64],
    next: usize,
}

impl Picks<'_> {
    /// The next word; a missing one is 0.
    fn word(&mut self) -> u64
        ensures word { result ≡ next_word (words_left self.old) }
        ensures left { words_left self.new ≡ drop 1 (words_left self.old) }
    {
        if self.next >= self.words.len() {
            return 0;
        }
        let word = self.words[self.next];
        self.next += 1;
        word
    }

    /// One of this many outcomes.
    fn one_of(&mut self, outcomes: usize) -> usize
        ensures word { 0 < outcomes → result ≡ next_word (words_left self.old) % outcomes }
        ensures left { 0 < outcomes → words_left self.new ≡ drop 1 (words_left self.old) }
        ensures within { 0 < outcomes → result < outcomes }
    {
        if outcomes == 0 {
            return 0;
        }
        (self.word() % outcomes as u64) as usize
    }
}

/// The binding that a stop leaves to a name, by itself: those that it had since its folder's last sync, in the order of
/// time, so that the first is that of the last sync. A name that is durable asks for no word.
fn chosen(name: &Name, picks: &mut Picks<'_>) -> Binding
    ensures may { (result ≡ name.entry.now.now) ⊎ Among result name.entry.now.had.items }
    ensures word { result ≡ binding_by name.entry.now (next_word (words_left picks.old)) }
    ensures left { words_left picks.new ≡ after_name name.entry.now (words_left picks.old) }
{
    if name.had.is_empty() {
        return name.now;
    }
    let pick = picks.one_of(name.had.len() + 1);
    if pick < name.had.len() {
        name.had[pick]
    } else {
        name.now
    }
}

/// A byte of what stands in a touched sector: 0 as at the last sync (zeros where nothing was), 1 as it was written,
/// 2 zeros, 3 bytes that the word gives.
fn torn_byte(node: &Node, at: usize, word: u64) -> u8
    ensures { result ≡ byte_by node.now at word }
{
    let written = if at < node.bytes.len() {
        node.bytes[at]
    } else {
        0
    };
    match word % 4 {
        0 => if at < node.synced { written } else { 0 },
        1 => written,
        2 => 0,
        _ => ((word / 4) % 256) as u8 ^ (at % 256) as u8,
    }
}

/// The word of the sector that a byte lies in: the next one where the sector begins, and else the one before.
fn sector_word(at: usize, word: u64, picks: &mut Picks<'_>) -> u64
    ensures word { result ≡ (if at % 512 == 0 then next_word (words_left picks.old) else word) }
    ensures left { words_left picks.new ≡ (if at % 512 == 0 then drop 1 (words_left picks.old) else words_left picks.old) }
{
    if at % 512 == 0 { picks.word() } else { word }
}

/// The bytes that a stop leaves to a node: first its length, between the shortest and the longest since its last sync,
/// the shortest first; then each touched sector below that length, in turn. A node that is durable asks for no word.
fn torn(alloc: Global, node: &Node, picks: &mut Picks<'_>) -> Result<Vec<u8>, AllocError>
    ensures may { IfOk result (λ bytes. node.now.synced ≤ length node.now.bytes.items → MayHold node.now.synced node.now.bytes.items bytes.items) }
    ensures words { IfOk result (λ bytes. PicksBytes node.now (words_left picks.old) bytes.items) }
    ensures left { OnOk result (words_left picks.new ≡ after_node node.now (words_left picks.old)) }
{
    if node.synced >= node.bytes.len() {
        return Vec::from_slice(alloc, &node.bytes);
    }
    let most = node.bytes.len() - node.synced;
    let long = node.synced + picks.one_of(most + 1);
    let firm = 512 * (node.synced / 512);
    let mut bytes = Vec::from_slice(alloc, node.bytes.split_at(firm).0)?;
    bytes.reserve(long - firm)?;
    let mut word = 0;
    for at in firm..long {
        word = sector_word(at, word, picks);
        bytes.push(torn_byte(node, at, word))?;
    }
    Ok(bytes)
}

/// A name with the binding that a stop leaves to it, by itself.
fn picked_name(alloc: Global, name: &Name, picks: &mut Picks<'_>) -> Result<Name, AllocError>
    ensures may { IfOk result (λ picked. IsPicked name.entry.now picked) }
    ensures words { IfOk result (λ picked. PicksBinding name.entry.now (words_left picks.old) picked) }
    ensures left { OnOk result (words_left picks.new ≡ after_name name.entry.now (words_left picks.old)) }
{
    Ok(Name {
        path: String::from_str(alloc, &name.path)?,
        now: chosen(name, picks),
        had: Vec::new(alloc),
    })
}

/// The names, each with the binding that a stop leaves to it, by itself.
fn picked_names(
    alloc: Global,
    names: &[Name],
    picks: &mut Picks<'_>,
) -> Result<Vec<Name>, AllocError>
    ensures may { IfOk result (λ picked. EachOf IsPicked names.now picked.items) }
    ensures words { IfOk result (λ picked. PickInTurn PicksBinding after_name names.now (words_left picks.old) picked.items) }
    ensures left { OnOk result (words_left picks.new ≡ words_after after_name names.now (words_left picks.old)) }
{
    let mut picked = Vec::new(alloc);
    for name in names {
        picked.push(picked_name(alloc, name, picks)?)?;
    }
    Ok(picked)
}

/// The nodes, each with the bytes that a stop leaves to it.
fn torn_nodes(alloc: Global, nodes: &[Node], picks: &mut Picks<'_>) -> Result<Vec<Node>, AllocError>
    ensures may { IfOk result (λ left. EachOf IsTorn nodes.now left.items) }
    ensures words { IfOk result (λ left. PickInTurn PicksNode after_node nodes.now (words_left picks.old) left.items) }
{
    let mut left = Vec::new(alloc);
    for node in nodes {
        let bytes = torn(alloc, node, picks)?;
        let synced = bytes.len();
        left.push(Node {
            bytes,
            synced,
            doubted: false,
        })?;
    }
    Ok(left)
}

/// What a stop leaves, by these words: first each loose name decides, in the order in which names first came up, then
/// each node with unsynced bytes, in the order in which the nodes were made.
fn left_of(held: &Held, picks: &mut Picks<'_>) -> Result<Held, AllocError>
    ensures image { IfOk result (λ left. (f r g s : ℕ) → may_leave (state_with held.now.calls.items f r) (state_with left.calls.items g s).seen) }
    ensures rest { IfOk result (λ left. IsAtRest (state_with left.calls.items 0 0)) }
    ensures words { IfOk result (λ left. ArePickedBy held.now.names.list.items held.now.nodes.items (words_left picks.old)
        (state_with left.calls.items 0 0).seen) }
{
    let picked = picked_names(held.alloc, &held.names.list, picks)?;
    let picked = Names::of(held.alloc, picked)?;
    let nodes = torn_nodes(held.alloc, &held.nodes, picks)?;
    let begin = Call::Begin(
        left_names(held.alloc, &picked)?,
        copies_of(held.alloc, &nodes)?,
    );
    let mut calls = Vec::new(held.alloc);
    calls.push(begin)?;
    Ok(Held {
        alloc: held.alloc,
        names: Names::of(held.alloc, left_names(held.alloc, &picked)?)?,
        nodes,
        calls,
    })
}

impl MemDisk {
    /// A disk with what the words say that a stop at this moment leaves; nothing is loose in it, its counters are 0
    /// and no call fails. Word i decides the i-th open choice, modulo its number of outcomes; missing words are 0.
    ///
    /// The choices are, in this order: each loose name, in the order in which the names came up (outcomes: what it
    /// stood for since its folder's last sync, in the order of time); then each node with unsynced bytes, in the
    /// order in which the nodes were made: its length (the shortest since its last sync first), and then each touched
    /// sector below that length (0 as at the last sync, with zeros after, 1 as written, 2 zeros, 3 other bytes that
    /// the word gives). Names below a folder that is not there are gone. Refused only Memory.
    pub fn crash(&self, picks: &[u64]) -> Result<MemDisk, Fault>
        ensures image { IfOk result (λ disk. may_leave (state_of self.now) (state_of disk).seen) }
        ensures words { IfOk result (λ disk. ArePickedBy self.now.held.names.list.items self.now.held.nodes.items picks.now (state_of disk).seen) }
        ensures which { IfErr result (λ e. e ≡ Fault.Memory) }
        ensures rest { IfOk result (λ disk. IsAtRest (state_of disk)) }
        ensures failures { IfOk result (λ disk. disk.failures ≡ 0) }
        ensures reads { IfOk result (λ disk. disk.reads ≡ 0) }
        ensures shortages { IfOk result (λ disk. disk.shortages ≡ 0) }
        ensures fuse { IfOk result (λ disk. disk.fuse ≡ plan.Never) }
    {
        let mut picks = Picks {
            words: picks,
            next: 0,
        };
        let left = left_of(&self.held, &mut picks)?;
        Ok(MemDisk {
            held: left,
            failures: 0,
            reads: 0,
            shortages: 0,
            fuse: Fuse::Never,
        })
    }
}
