//! The commands, and what each answers.
ghost use Rattle.std.specs.Prelude.{◌≡◌, ◌≤◌, ◌⊎◌, Some, IsErrOf};
ghost use Rattle.surf_base.specs.Outside.{Files};
ghost use Rattle.surf_answers.specs.Commands.{OnRequest};
ghost use Rattle.surf_run.specs.Run.{NamesFile};
ghost use Rattle.surf_words.specs.Words.{request};
ghost use Rattle.surf_answers.specs.Tells.{Concludes, ConcludesOver};

use std::alloc::Global;
use surf_answers::Answered;
use surf_base::Shelf;
use surf_cutting::commands::{cut, disc, sew};
use surf_finding::commands::{basis, certify_basis, certify_loops, cycle, loops, try_shape};
use surf_judging::commands::{check, confirm};
use surf_looking::commands::{dist, gen_shape, info, lengths};
use surf_looking::{help, version};
use surf_texts::Refused;
use surf_walking::commands::{class, same, shortest};
use surf_words::{Command, CutWords};

/// What a command answers.
pub(crate) fn answer<S: Shelf>(
    alloc: Global,
    command: Command,
    shelf: &mut S,
) -> Result<Answered, Refused>
    ensures holds { S.holds shelf.new ≡ S.holds shelf.old }
    ensures later { S.faults shelf.old ≤ S.faults shelf.new }
    ensures tells { ConcludesOver (S.holds shelf.old) (S.faults shelf.old) (S.faults shelf.new)
        (OnRequest (Some (request command.entry))) result }
    ensures reached { IsErrOf result Refused.Read → NamesFile (Some (request command.entry)) }
    ensures untouched { NamesFile (Some (request command.entry)) ⊎ (shelf.new ≡ shelf.old) }
    ensures alone { NamesFile (Some (request command.entry)) ⊎ ((files : Files) →
        Concludes (OnRequest (Some (request command.entry)) files) result) }
{
    match command {
        Command::Help => help(alloc),
        Command::Version => version(alloc),
        Command::Info { mesh } => info::answer(alloc, shelf, mesh),
        Command::Dist {
            mesh,
            lengths,
            base,
        } => dist::answer(alloc, shelf, mesh, lengths, base),
        Command::Loops {
            mesh,
            lengths,
            base,
        } => loops::answer(alloc, shelf, mesh, lengths, base),
        Command::Basis { mesh, lengths } => basis::answer(alloc, shelf, mesh, lengths),
        Command::Cycle { mesh, lengths } => cycle::answer(alloc, shelf, mesh, lengths),
        Command::LargeBasis { mesh, lengths } => basis::answer_large(alloc, shelf, mesh, lengths),
        Command::LargeCycle { mesh, lengths } => cycle::answer_large(alloc, shelf, mesh, lengths),
        Command::CutFull {
            mesh,
            lengths,
            base,
        } => cut::answer(alloc, shelf, CutWords::Full, mesh, lengths, base),
        Command::CutTrimmed {
            mesh,
            lengths,
            base,
        } => cut::answer(alloc, shelf, CutWords::Trimmed, mesh, lengths, base),
        Command::CutThrough {
            mesh,
            lengths,
            base,
            points,
        } => {
            let extent = CutWords::Through { points };
            cut::answer(alloc, shelf, extent, mesh, lengths, base)
        }
        Command::Sew { mesh } => sew::answer(alloc, shelf, mesh),
        Command::Disc { mesh } => disc::answer(alloc, shelf, mesh),
        Command::Class { mesh, walk } => class::answer(alloc, shelf, mesh, walk),
        Command::Same {
            mesh,
            first,
            second,
        } => same::answer(alloc, shelf, mesh, first, second),
        Command::Confirm { mesh, walk, cert } => confirm::answer(alloc, shelf, mesh, walk, cert),
        Command::Shortest {
            mesh,
            lengths,
            walk,
        } => shortest::answer(alloc, shelf, mesh, lengths, walk),
        Command::LargeShortest {
            mesh,
            lengths,
            walk,
        } => shortest::answer_large(alloc, shelf, mesh, lengths, walk),
        Command::CertifyLoops {
            mesh,
            lengths,
            base,
        } => certify_loops::answer(alloc, shelf, mesh, lengths, base),
        Command::CertifyBasis { mesh, lengths } => certify_basis::answer(
            alloc, shelf, mesh, lengths,
        ),
        Command::Check {
            mesh,
            lengths,
            cert,
        } => check::answer(alloc, shelf, mesh, lengths, cert),
        Command::Lengths { mesh, decimals } => lengths::answer(alloc, shelf, mesh, decimals),
        Command::Gen { shape } => gen_shape::answer(alloc, shape),
        Command::Try { shape, scatter } => try_shape::answer(alloc, shape, scatter),
    }
}
