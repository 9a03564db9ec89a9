//! The top call.
ghost use Rattle.std.specs.Prelude.{◌≡◌, ◌≢◌, ◌⊎◌, ◌↔◌, ◌≤◌, ◌<◌, ℕ, List, None};
ghost use Rattle.surf_base.specs.Outside.{Files, HasRisen};
ghost use Rattle.surf_run.specs.Leads.{Answer, Leads};
ghost use Rattle.surf_texts.specs.Outcome.{misses};
ghost use Rattle.surf_run.specs.Run.{AreTheFiles, NamesFile, PutsLine, IsLineOf, WritesAnswer, WritesFront};
ghost use Rattle.surf_answers.specs.Tells.{IsTold};
ghost use Rattle.surf_words.specs.Words.{texts, request_of};

use crate::commands::answer;
use crate::saying::{refuse, say};
use std::alloc::Global;
use surf_base::{Shelf, Sink, put_all};
use surf_words::parse;

/// The line for words that are in no row of the table of commands.
pub const USAGE: &str = "usage: the words are in no row of the command table\n";

/// Does all that the program does, and answers its status.
pub fn run<S: Shelf, O: Sink, D: Sink>(
    alloc: Global,
    words: &[String],
    shelf: &mut S,
    out: &mut O,
    diag: &mut D,
) -> u8
    ensures holds { S.holds shelf.new ≡ S.holds shelf.old }

    // Words that name no file leave the shelf as it was.
    ensures untouched { ¬ NamesFile (request_of (texts words.now)) → shelf.new ≡ shelf.old }

    // The answer is written whole.
    ensures answered { result ≤ 1 → (files : Files) →
        AreTheFiles (request_of (texts words.now)) (S.holds shelf.old) files →
        WritesAnswer (texts words.now) result (O.written out.old) (O.written out.new) files }
    ensures quiet { result ≤ 1 → D.written diag.new ≡ D.written diag.old }

    // Or nothing of it, or a front where the output failed.
    ensures unchanged { 1 < result → result ≢ 10 → O.written out.new ≡ O.written out.old }
    ensures write { result ≡ 10 → HasRisen (O.faults out.old) (O.faults out.new)
        × ((files : Files) → AreTheFiles (request_of (texts words.now)) (S.holds shelf.old) files →
        WritesFront (texts words.now) (O.written out.old) (O.written out.new) files) }

    // And then why.
    ensures line { 1 < result → (line : List ℕ) × IsLineOf (texts words.now) (S.holds shelf.old)
        result line × PutsLine (D.written diag.old) (D.written diag.new) (D.faults diag.old)
        (D.faults diag.new) line }

    ensures usage { result ≡ 2 ↔ request_of (texts words.now) ≡ None }
    ensures reached { result ≡ 9 → NamesFile (request_of (texts words.now)) }
    ensures read { result ≡ 9 → HasRisen (S.faults shelf.old) (S.faults shelf.new)
        ⊎ IsTold (S.holds shelf.old) (λ files. Leads (texts words.now) files misses) }
    ensures statuses { result ≤ 15 }

    // Where nothing failed, the words and the files decide; where the words name no file, the words
    // alone.
    ensures complete { (files : Files) → AreTheFiles (request_of (texts words.now))
        (S.holds shelf.old) files → (status : ℕ) (text line : List ℕ) →
        Answer (texts words.now) files status text line →
        (NamesFile (request_of (texts words.now)) →
        ¬ HasRisen (S.faults shelf.old) (S.faults shelf.new)) →
        ¬ HasRisen (O.faults out.old) (O.faults out.new) → result ≡ status ⊎ result ≡ 11 }
{
    let Some(command) = parse(words) else {
        say(diag, USAGE);
        return 2;
    };
    match answer(alloc, command, shelf) {
        Ok(answered) => match put_all(out, &answered.text) {
            Ok(()) => answered.verdict.status(),
            Err(_) => {
                say(diag, "write fault\n");
                10
            }
        },
        Err(refused) => refuse(alloc, &refused, diag),
    }
}
