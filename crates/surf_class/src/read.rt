//! Reads evidence.
ghost use Rattle.std.specs.Prelude.{◌≡◌, ◌<◌, ◌≤◌, ◌^◌, ◌*◌, nat_lt, IfOk, Ok, length};
ghost use Rattle.std.specs.Str.{bytes_eq};
ghost use Rattle.surf_text.specs.Text.{tokens_of};
ghost use Rattle.surf_surfaces.specs.Mesh.{pair_lt};
ghost use Rattle.surf_class.specs.Evidences.{is_rising, is_ordered, two_by_two, face_numbers, pair_numbers, counted};
ghost use Rattle.surf_class.specs.Evidences.{if_formed, evidence_of, evidence_in};
ghost use Rattle.surf_base.specs.Gives.{Gives};
ghost use Rattle.surf_class.specs.Numbers.{numbers_from};
ghost use Rattle.surf_class.specs.Reading.{as_formed};
ghost use Rattle.surf_class.specs.Seen.{seen};

use crate::evidence::{Evidence, FaceList, PairList};
use crate::fault::EvidenceFault;
use crate::numbers::{NumberFault, read_numbers};
use std::alloc::{AllocError, Global};
use surf_base::{FaceId, VertexId};
use surf_text::{Line, Lines, Tokens};

// Whether each number is above the one before it.
fn rise(numbers: &[u32]) -> bool
    ensures rising { result ≡ is_rising nat_lt numbers.now }
{
    for i in 1..numbers.len() {
        if numbers[i] <= numbers[i - 1] {
            return false;
        }
    }
    true
}

// Whether a pair is before another one.
fn is_below(p: (VertexId, VertexId), q: (VertexId, VertexId)) -> bool
    ensures below { result ≡ pair_lt p q }
{
    p.0 < q.0 || p.0 == q.0 && p.1 < q.1
}

// Whether each pair is above the one before it.
fn pairs_rise(pairs: &[(VertexId, VertexId)]) -> bool
    ensures rising { result ≡ is_rising pair_lt pairs.now }
{
    for i in 1..pairs.len() {
        if !is_below(pairs[i - 1], pairs[i]) {
            return false;
        }
    }
    true
}

// Whether each pair has its lesser vertex first.
fn are_ordered(pairs: &[(VertexId, VertexId)]) -> bool
    ensures ordered { result ≡ is_ordered pairs.now }
{
    pairs.iter().all(|pair| pair.0 < pair.1)
}

// Numbers as faces.
fn as_faces(alloc: Global, numbers: &[u32]) -> Result<Vec<FaceId>, AllocError>
    ensures faces { IfOk result (λ v. v.items ≡ numbers.now) }
{
    let mut faces = Vec::with_capacity(alloc, numbers.len())?;
    for number in numbers {
        faces.push(FaceId::new(*number))?;
    }
    Ok(faces)
}

// Numbers two by two, as pairs of vertices.
fn as_pairs(alloc: Global, numbers: &[u32]) -> Result<Vec<(VertexId, VertexId)>, AllocError>
    ensures pairs { IfOk result (λ v. v.items ≡ two_by_two numbers.now) }
{
    let count = numbers.len() / 2;
    let mut pairs = Vec::with_capacity(alloc, count)?;
    for i in 0..count {
        let u = VertexId::new(numbers[2 * i]);
        let v = VertexId::new(numbers[2 * i + 1]);
        pairs.push((u, v))?;
    }
    Ok(pairs)
}

// Null evidence by the numbers of its line: a count, and as many faces, increasing.
fn read_faces(alloc: Global, line: u32, numbers: &[u32]) -> Result<Evidence, EvidenceFault>
    ensures faces { Gives EvidenceFault.Memory seen result (if_formed line (counted face_numbers
        (Ok numbers.now))) }
{
    let [count, faces @ ..] = numbers else {
        return Err(EvidenceFault::Form { line });
    };
    if faces.len() != *count as usize || !rise(faces) {
        return Err(EvidenceFault::Form { line });
    }
    let faces = as_faces(alloc, faces)?;
    Ok(Evidence::Null(FaceList::from_faces(faces)))
}

// Odd evidence by the numbers of its line: a count, and the ends of as many edges, increasing.
fn read_pairs(alloc: Global, line: u32, numbers: &[u32]) -> Result<Evidence, EvidenceFault>
    ensures pairs { Gives EvidenceFault.Memory seen result (if_formed line (counted pair_numbers
        (Ok numbers.now))) }
{
    let [count, ends @ ..] = numbers else {
        return Err(EvidenceFault::Form { line });
    };
    if ends.len() != 2 * *count as usize {
        return Err(EvidenceFault::Form { line });
    }
    let pairs = as_pairs(alloc, ends)?;
    if !are_ordered(&pairs) || !pairs_rise(&pairs) {
        return Err(EvidenceFault::Form { line });
    }
    Ok(Evidence::Odd(PairList::from_pairs(pairs)))
}

// The numbers of the tokens to come on a line.
fn numbers_behind(alloc: Global, line: u32, tokens: Tokens<'_>) -> Result<Vec<u32>, EvidenceFault>
    requires few { length tokens.tokens < 2 ^ 32 }
    ensures numbers { Gives EvidenceFault.Memory (λ v. v.items) result
        (as_formed line (numbers_from 0 tokens.entry.tokens)) }
{
    match read_numbers(alloc, tokens) {
        Ok(numbers) => Ok(numbers),
        Err(NumberFault::Bad { place: _ }) => Err(EvidenceFault::Form { line }),
        Err(NumberFault::Memory) => Err(EvidenceFault::Memory),
    }
}

// Whether a token is a word.
fn is_word(token: &[u8], word: &[u8]) -> bool
    ensures word { result ≡ bytes_eq token.now word.now }
{
    token == word
}

// The evidence of a line.
fn read_line(alloc: Global, line: &Line<'_>) -> Result<Evidence, EvidenceFault>
    requires few { length (tokens_of line.now.bytes.now) < 2 ^ 32 }
    ensures evidence { Gives EvidenceFault.Memory seen result (evidence_of line.now.number
        (tokens_of line.now.bytes.now)) }
{
    let mut tokens = Tokens::over(line.bytes);
    let Some(word) = tokens.next_token() else {
        return Err(EvidenceFault::Header { line: line.number });
    };
    if is_word(word, b"null") {
        let numbers = numbers_behind(alloc, line.number, tokens)?;
        return read_faces(alloc, line.number, &numbers);
    }
    if is_word(word, b"odd") {
        let numbers = numbers_behind(alloc, line.number, tokens)?;
        return read_pairs(alloc, line.number, &numbers);
    }
    Err(EvidenceFault::Header { line: line.number })
}

/// Reads evidence: one line `null n f0 f1 ..` with n faces, or `odd n u v u v ..` with n edges,
/// increasing, each by its lesser end and its greater. Numbers are whole and at most 4,294,967,295.
/// The text is shorter than 2^32 − 1 bytes.
///
/// Refuses with `Header` where the first token is another word, with line 0 where no line has a
/// token; then with `Form` where that line has another form; then with `Trailing` for a second line
/// with a token; or with `Memory` where there is none. No room is taken for a count that a text
/// merely states.
pub fn read_evidence(alloc: Global, text: &[u8]) -> Result<Evidence, EvidenceFault>
    requires short { length text.now < 4294967295 }
    ensures evidence { Gives EvidenceFault.Memory seen result (evidence_in text.now) }
{
    let mut lines = Lines::over(text);
    let Some(line) = lines.next_line() else {
        return Err(EvidenceFault::Header { line: 0 });
    };
    let evidence = read_line(alloc, &line)?;
    match lines.next_line() {
        Some(line) => Err(EvidenceFault::Trailing { line: line.number }),
        None => Ok(evidence),
    }
}
