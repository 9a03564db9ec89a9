//! The next line of a text, which has a form.
ghost use Rattle.std.specs.Prelude.{ok_or};
ghost use Rattle.surf_text.specs.Text.{tokens_of};
ghost use Rattle.surf_text.specs.Walks.{text_line};
ghost use Rattle.surf_cert.specs.Lines.{numbers_of};
ghost use Rattle.surf_cert.specs.Grammar.{next_of};
ghost use Rattle.surf_cert.specs.declared.fault.CertText.TheVariants.{Form};
ghost use Rattle.surf_base.specs.Gives.{Gives};
ghost use Rattle.surf_sheetcert.specs.Lines.{count_of, sheet_on};

use crate::line::{read_count, read_sheet};
use std::alloc::Global;
use surf_cert::{CertText, read_number};
use surf_records::SheetRow;
use surf_text::{Line, Lines, Tokens};

/// The next line, which is a word and a count.
#[tactic(auto, unfolding(surf_cert::specs::Grammar::next_of))]
pub(crate) fn next_count(lines: &mut Lines<'_>, word: &[u8]) -> Result<u32, CertText>
    ensures count { Gives CertText.Memory (λ x. (x, lines.new)) result
        (next_of (count_of word.now) lines.old) }
{
    let line = lines.next_line().ok_or(CertText::Early)?;
    read_count(word, line.bytes).ok_or(CertText::Form { line: line.number })
}

/// The next line, which gives a sheet.
#[tactic(auto, unfolding(surf_cert::specs::Grammar::next_of))]
pub(crate) fn next_sheet(lines: &mut Lines<'_>) -> Result<SheetRow, CertText>
    ensures sheet { Gives CertText.Memory (λ x. (x, lines.new)) result
        (next_of sheet_on lines.old) }
{
    let line = lines.next_line().ok_or(CertText::Early)?;
    read_sheet(line.bytes).ok_or(CertText::Form { line: line.number })
}

/// The numbers of a line.
pub(crate) fn read_numbers(alloc: Global, line: &Line<'_>) -> Result<Vec<u32>, CertText>
    ensures numbers { Gives CertText.Memory (λ x. x.items) result
        (ok_or (numbers_of (tokens_of (text_line line.now).bytes)) (Form (text_line line.now).number)) }
{
    let mut numbers = Vec::new(alloc);
    let mut tokens = Tokens::over(line.bytes);
    while let Some(token) = tokens.next_token() {
        let Some(number) = read_number(token) else {
            return Err(CertText::Form { line: line.number });
        };
        numbers.push(number)?;
    }
    Ok(numbers)
}
