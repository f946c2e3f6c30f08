//! Link tests and their answers.

ghost use Rattle.std.specs.Prelude.{◌≡◌, ◌+◌, ◌≤◌, length, take, IfOk, Ok};
ghost use Rattle.mtp3_codec.specs.Headings.{kind_of, kind_heading};
ghost use Rattle.mtp3_codec.specs.Management.{answer_to, pattern_in, read_link_test, spelled};
ghost use Rattle.mtp3_codec.specs.Values.{test_value, Gives};

use crate::Label;
use crate::fault::MgmtFault;
use crate::writing::write_at;
use signalling_types::{PointCode, Sls};

/// Octets of a pattern, at most.
const PATTERN_OCTETS: usize = 15;

/// Octets of a link test or of its answer, at most: label, heading, length and pattern.
pub const TEST_OCTETS: usize = 6 + PATTERN_OCTETS;

/// What kind of message it is (Q.707 §5).
#[derive(Clone, Copy, Debug, PartialEq, Eq)]
pub enum TestKind {
    /// A signalling link test.
    Test,
    /// The answer to one.
    Acknowledgement,
}

impl TestKind {
    /// The kind that a heading names.
    fn of_heading(heading: u8) -> Option<TestKind>
        ensures { result ≡ kind_of heading }
    {
        match heading {
            0x11 => Some(TestKind::Test),
            0x21 => Some(TestKind::Acknowledgement),
            _ => None,
        }
    }

    /// The heading of this kind.
    fn heading(self) -> u8
        ensures { result ≡ kind_heading self }
    {
        match self {
            TestKind::Test => 0x11,
            TestKind::Acknowledgement => 0x21,
        }
    }
}

/// A link test or its answer: a message of service indicator 1 (Q.707 §5).
#[derive(Clone, Copy, PartialEq, Eq)]
pub struct LinkTest<'a> {
    /// Which of the two it is.
    pub kind: TestKind,
    /// The signalling link code, which is in the label where other messages have their selection (Q.704 §15.2).
    pub slc: Sls,
    /// The test pattern, at most 15 octets.
    pub pattern: &'a [u8],
}

impl<'a> LinkTest<'a> {
    /// The link test or answer of a signalling information field. Its pattern is a slice of it.
    ///
    /// Short if there is no heading after the label; otherwise NotInProfile if the heading is neither of the two;
    /// otherwise Short if there is no length octet, or fewer octets after it than it says. The length octet's low half
    /// and the octets after the pattern are ignored.
    pub fn read(sif: &'a [u8]) -> Result<LinkTest<'a>, MgmtFault>
        ensures exact { Gives result (read_link_test sif.now) }
        ensures fits { IfOk result (λ test. length test.pattern.now ≤ 15) }
    {
        let Some(label) = Label::read(sif) else {
            return Err(MgmtFault::Short);
        };
        let [_, _, _, _, heading, ref rest @ ..] = *sif else {
            return Err(MgmtFault::Short);
        };
        match TestKind::of_heading(heading) {
            Some(kind) => read_pattern(kind, label.sls, rest),
            None => Err(MgmtFault::NotInProfile),
        }
    }

    /// Writes the answer to this test at the front of a buffer, from the point `opc` to the point `dpc`, and returns
    /// how many octets it has. It has the same code and pattern (Q.707 §2.2).
    pub fn answer(&self, dpc: PointCode, opc: PointCode, out: &mut [u8; TEST_OCTETS]) -> usize
        requires { length self.now.pattern.now ≤ 15 }
        ensures count { result ≡ 6 + length self.now.pattern.now }
        ensures text { take result out.new ≡ spelled dpc opc (answer_to (test_value self.now)) }
        ensures read_back { read_link_test (take result out.new) ≡ Ok (answer_to (test_value self.now)) }
    {
        let answer = LinkTest {
            kind: TestKind::Acknowledgement,
            slc: self.slc,
            pattern: self.pattern,
        };
        answer.write(dpc, opc, out)
    }

    /// Writes it at the front of a buffer, from the point `opc` to the point `dpc`, and returns how many octets it has.
    pub fn write(&self, dpc: PointCode, opc: PointCode, out: &mut [u8; TEST_OCTETS]) -> usize
        requires { length self.now.pattern.now ≤ 15 }
        ensures count { result ≡ 6 + length self.now.pattern.now }
        ensures text { take result out.new ≡ spelled dpc opc (test_value self.now) }
        ensures read_back { read_link_test (take result out.new) ≡ Ok (test_value self.now) }
    {
        let label = Label {
            dpc,
            opc,
            sls: self.slc,
        };
        let at = write_at(out, 0, &label.write());
        let head = [self.kind.heading(), self.pattern.len() as u8 * 16];
        let at = write_at(out, at, &head);
        write_at(out, at, self.pattern)
    }
}

/// The pattern after a heading, and the message that it gives.
fn read_pattern(kind: TestKind, slc: Sls, rest: &[u8]) -> Result<LinkTest<'_>, MgmtFault>
    ensures exact { Gives result (pattern_in kind slc rest.now) }
    ensures fits { IfOk result (λ test. length test.pattern.now ≤ 15) }
{
    let [count, ref octets @ ..] = *rest else {
        return Err(MgmtFault::Short);
    };
    match octets.get(..usize::from(count / 16)) {
        Some(pattern) => Ok(LinkTest { kind, slc, pattern }),
        None => Err(MgmtFault::Short),
    }
}
