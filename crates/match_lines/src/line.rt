// One line.
ghost use Rattle.std.specs.Prelude.{◌≡◌};
ghost use Rattle.match_lines_spec.specs.Lines.{verdict_at, verdict as verdictOn};
ghost use Rattle.match_lines_spec.specs.Block.{verdict_if};

use match_lines_spec::Verdict;

// The verdict on a line with its first space after n bytes.
#[tactic(auto, using(crate::proofs::LineCode::parted_laws))]
fn parted(line: &[u8], n: usize) -> Verdict
    ensures { result ≡ verdict_at line.now n }
{
    if line.len() <= n {
        return Verdict::IsBad;
    }
    match resource::match_texts(&line[..n], &line[n + 1..]) {
        Ok(Some(_)) => Verdict::IsYes,
        Ok(None) => Verdict::IsNo,
        Err(_) => Verdict::IsBad,
    }
}

// The verdict on a line, given without its newline.
#[tactic(auto, using(crate::proofs::LineCode::verdict_laws))]
pub fn judge(line: &[u8]) -> Verdict
    ensures { result ≡ verdictOn line.now }
{
    if line.len() <= 600 {
        return parted(line, octets::until(line, 0, b' '));
    }
    Verdict::IsBad
}

// The verdict on a line that may be the rest of one too long.
pub(crate) fn verdict_if(long: bool, line: &[u8]) -> Verdict
    ensures { result ≡ verdict_if long line.now }
{
    if long { Verdict::IsBad } else { judge(line) }
}
