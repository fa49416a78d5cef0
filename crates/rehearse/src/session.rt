//! Plays the lines of a script on one card, until another is asked for.

ghost use Rattle.cards.specs.Meanings.{selector_of};
ghost use Rattle.std.specs.Prelude.{◌≡◌, IfErr, IfOk};
ghost use Rattle.rehearse.specs.Seen.{stands};
ghost use Rattle.scripts.specs.Answers.{first_after, played_after, refused_after, unknown_after};
ghost use Rattle.rehearse.specs.Plays.{Filed, Made, Saves, draft_after};
ghost use Rattle.rehearse.specs.Sessions.{LinePlayed, Played};

use crate::player::Player;
use crate::script::{Script, bytes_of, words_of};
use cards::LONGEST_FILE;
use scripts::{
    Answer, CardCall, Choice, Command, Fault, FileCall, Rows, Tally, Workspace, read_command,
};
use selectors::Selector;
use std::alloc::AllocError;
use std::ops::ControlFlow;
use std::{fs, io};

/// What stays from card to card.
#[derive(Drop)]
pub struct Rehearsal {
    pub script: Script,
    pub workspace: Workspace,
    pub tally: Tally,
}

impl Rehearsal {
    /// Counts the answer to the present line, and prints it. Where there was no memory for a call,
    /// the program ends.
    pub fn answer(&mut self, rt: &HostRuntime, answered: Result<Answer, Fault>) -> io::Result<()>
        ensures played { self.new.tally.played ≡ played_after answered self.old.tally.played }
        ensures refused { self.new.tally.refused ≡ refused_after answered self.old.tally.refused }
        ensures unknown { self.new.tally.unknown ≡ unknown_after answered self.old.tally.unknown }
        ensures first { self.new.tally.first
            ≡ first_after answered self.old.script.number self.old.tally.first }
        ensures kept { (self.new.workspace ≡ self.old.workspace)
            × (self.new.script ≡ self.old.script) }
    {
        self.tally.count(&answered, self.script.number);
        match answered {
            Ok(answer) => println!(rt; "{answer}"),
            Err(Fault::Memory(error)) => Err(error.into()),
            Err(fault) => println!(rt; "{fault}"),
        }
    }
}

/// What a line asks for. Its own enum: three cases, of which none is a failure.
#[derive(Drop)]
pub enum Line {
    /// Nothing: it is passed over.
    Empty,
    /// Another card.
    Next(Choice),
    /// A call, or a line that is not read; what it is answered.
    Answered(Result<Answer, Fault>),
}

/// Makes the call on the card.
fn call<T: Rows, S: Selector>(
    rt: &HostRuntime,
    player: &mut Player<T, S>,
    workspace: &mut Workspace,
    call: CardCall,
) -> Result<Answer, Fault>
    ensures made { let range = S.range (selector_of player.old.card) in
        Made T.kind T.Rows.scripted T.Row.Default.is_default range
        (stands S.weight player.old) player.old.area workspace.old.draft call.entry result
        (stands S.weight player.new) player.new.area }
    ensures own { player.new.own ≡ player.old.own }
    ensures workspace { (workspace.new.element ≡ workspace.old.element)
        × (workspace.new.draft ≡ draft_after call.entry workspace.old.draft) }
{
    let heap = rt.alloc();
    match call {
        CardCall::Open(opening, rows) => player.open(heap, opening, rows),
        CardCall::Install => player.install(workspace.hand_over()),
        CardCall::Patch(patch, rows) => player.patch(heap, patch, rows),
        CardCall::Work(budget) => player.work(budget),
        CardCall::Row(x, y, n) => player.row(heap, x, y, n),
        CardCall::Left => Ok(player.answer_left()),
        CardCall::Due => Ok(player.answer_due()),
        CardCall::Residue => player.residue(heap),
        CardCall::Tone(parts) => player.tone(parts),
    }
}

/// Saves the card's file at a path, over what is there; unreadable where that cannot be done.
fn save<T: Rows, S: Selector>(
    rt: &HostRuntime,
    player: &Player<T, S>,
    path: &str,
) -> Result<Answer, Fault>
    ensures { Saves T.Rows.scripted (stands S.weight player.now) result }
{
    let file = player.file(rt.alloc(), LONGEST_FILE)?;
    fs::write(rt, path, file.as_slice()).map_err(|_| Fault::Unreadable)?;
    Ok(Answer::Counted(file.len() as u64))
}

/// Makes the call that makes a file of the card or takes one.
fn file_call<T: Rows, S: Selector>(
    rt: &HostRuntime,
    player: &mut Player<T, S>,
    call: FileCall,
) -> Result<Answer, Fault>
    ensures made { Filed T.Rows.scripted (stands S.weight player.old) call.entry result
        (stands S.weight player.new) }
    ensures kept { (player.new.area ≡ player.old.area) × (player.new.own ≡ player.old.own) }
{
    match call {
        FileCall::Write(room) => player.write(rt.alloc(), room),
        FileCall::Save(path) => save(rt, player, path),
        FileCall::Load(x, y, path) => player.load(x, y, bytes_of(rt, path)),
    }
}

/// Plays a line of these words.
fn play<T: Rows, S: Selector>(
    rt: &HostRuntime,
    player: &mut Player<T, S>,
    workspace: &mut Workspace,
    words: &[&str],
) -> Line
    ensures { Played T.kind T.Rows.scripted T.Row.Default.is_default S.weight S.range
        words.now player.old workspace.old result player.new workspace.new }
{
    let [name, rest @ ..] = words else {
        return Line::Empty;
    };
    let Some(command) = read_command(name, rest) else {
        return Line::Answered(Err(Fault::Unknown));
    };
    match command {
        Command::Choose(choice) => Line::Next(choice),
        Command::OnElement(edit) => Line::Answered(workspace.edit(edit)),
        Command::OnDraft(drafting) => Line::Answered(workspace.draft(drafting)),
        Command::OnSelector(asked) => Line::Answered(player.ranks(asked)),
        Command::OnFile(asked) => Line::Answered(file_call(rt, player, asked)),
        Command::OnCard(asked) => Line::Answered(call(rt, player, workspace, asked)),
    }
}

/// Plays the present line. A comment is passed over, text or not; any other that is no text is
/// not read.
fn play_line<T: Rows, S: Selector>(
    rt: &HostRuntime,
    player: &mut Player<T, S>,
    rehearsal: &mut Rehearsal,
) -> Result<Line, AllocError>
    ensures line { IfOk result (λ line. LinePlayed
        T.kind T.Rows.scripted T.Row.Default.is_default S.weight S.range
        rehearsal.old.script.line.items player.old rehearsal.old.workspace line
        player.new rehearsal.new.workspace) }
    ensures unplayed { IfErr result (λ _. (player.new ≡ player.old)
        × (rehearsal.new.workspace ≡ rehearsal.old.workspace)) }
    ensures kept { (rehearsal.new.tally ≡ rehearsal.old.tally)
        × (rehearsal.new.script ≡ rehearsal.old.script) }
{
    if rehearsal.script.is_comment() {
        return Ok(Line::Empty);
    }
    let Some(text) = rehearsal.script.text() else {
        return Ok(Line::Answered(Err(Fault::Unknown)));
    };
    let words = words_of(rt.alloc(), text)?;
    Ok(play(rt, player, &mut rehearsal.workspace, words.as_slice()))
}

/// Plays lines until another card is asked for, which goes on with its choice, or the script is
/// over, with so many rows left.
pub fn session<T: Rows, S: Selector + Drop>(
    rt: &HostRuntime,
    selector: S,
    own: S,
    rehearsal: &mut Rehearsal,
) -> io::Result<ControlFlow<usize, Choice>>
    requires selector { S.ordered selector }
    requires own { S.ordered own }
{
    let mut player = Player::<T, S>::new(rt.alloc(), selector, own);
    // As many lines as there are: each loop is proved to end.
    for _ in 0..u64::MAX {
        if !rehearsal.script.advance()? {
            break;
        }
        match play_line(rt, &mut player, rehearsal)? {
            Line::Empty => {}
            Line::Next(choice) => return Ok(ControlFlow::Continue(choice)),
            Line::Answered(answered) => rehearsal.answer(rt, answered)?,
        }
    }
    Ok(ControlFlow::Break(player.left()))
}
