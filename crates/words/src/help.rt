// The verbs, and what a program says of them.
ghost use Rattle.std.specs.Prelude.{[], ◌∷◌, refl};
ghost use Rattle.std.proofs.Common.{lit<};
ghost use Rattle.words.specs.declared.help.Verb.TheVariants.{Candidates, Cut, Fields, Help, Inverse, Show, Times};
ghost use Rattle.words.specs.Named.{verb_word_of};

use crate::menu::Menu;
use crate::named::Named;
use std::fmt;

#[derive(Clone, Copy)]
pub enum Verb {
    Fields,
    Times,
    Inverse,
    Cut,
    Show,
    Candidates,
    Help,
}

impl Named for Verb {
    ghost text = { verb_word_of };

    ghost all = { Fields ∷ Times ∷ Inverse ∷ Cut ∷ Show ∷ Candidates ∷ Help ∷ [] };

    fn all() -> &'static [Verb] {
        &[
            Verb::Fields,
            Verb::Times,
            Verb::Inverse,
            Verb::Cut,
            Verb::Show,
            Verb::Candidates,
            Verb::Help,
        ]
    }

    fn word(self) -> &'static str {
        match self {
            Verb::Fields => "fields",
            Verb::Times => "times",
            Verb::Inverse => "inverse",
            Verb::Cut => "cut",
            Verb::Show => "show",
            Verb::Candidates => "candidates",
            Verb::Help => "help",
        }
    }

    ghost whole = { elim [ Fields ↦ (0, lit< tt, refl) | Times ↦ (1, lit< tt, refl) | Inverse ↦ (2, lit< tt, refl) | Cut ↦ (3, lit< tt, refl) | Show ↦ (4, lit< tt, refl) | Candidates ↦ (5, lit< tt, refl) | Help ↦ (6, lit< tt, refl) ] };
}

impl Verb {
    // Its options.
    pub fn options(self) -> &'static str {
        match self {
            Verb::Cut => "--field, --rows, --need, --of, --job and --stamp",
            Verb::Candidates => "--column, --place and --value",
            Verb::Fields | Verb::Times | Verb::Inverse | Verb::Show | Verb::Help => "none",
        }
    }

    // One line: how the verb is called.
    pub fn usage(self) -> &'static str {
        match self {
            Verb::Fields => "jobvault fields",
            Verb::Times => "jobvault times FIELD A B",
            Verb::Inverse => "jobvault inverse FIELD A",
            Verb::Cut => "jobvault cut [OPTION ..] FILE DIR",
            Verb::Show => "jobvault show PIECE ..",
            Verb::Candidates => "jobvault candidates --column K --place J [--value V] PIECE ..",
            Verb::Help => "jobvault help [VERB]",
        }
    }
}

// What a program with this menu says of itself.
#[derive(Clone, Copy)]
pub struct Overview(pub Menu);

impl fmt::Display for Overview {
    fn fmt<W: fmt::Write>(&self, f: &mut fmt::Formatter<W>) -> fmt::Result {
        let (more, examples) = match self.0 {
            Menu::Cutting => ("", FIELDS_EXAMPLE),
            Menu::Whole => (PIECES_USAGE, PIECES_EXAMPLES),
        };
        write!(f, "{USAGE}{more}{HELP_AND_EXAMPLES}{examples}")
    }
}

// What a verb does, with examples, in a program with this menu.
#[derive(Clone, Copy)]
pub struct About(pub Menu, pub Verb);

impl fmt::Display for About {
    fn fmt<W: fmt::Write>(&self, f: &mut fmt::Formatter<W>) -> fmt::Result {
        match self.1 {
            Verb::Fields => write!(f, "{FIELDS}"),
            Verb::Times => write!(f, "{TIMES}"),
            Verb::Inverse => write!(f, "{INVERSE}"),
            Verb::Cut => write!(f, "{CUT}"),
            Verb::Show => write!(f, "{SHOW}"),
            Verb::Candidates => write!(f, "{CANDIDATES}"),
            Verb::Help => write!(f, "{HELP}{} or help{HELP_END}", self.0.verbs()),
        }
    }
}

const USAGE: &str = "jobvault: a job cut into pieces, of which enough bring it back

usage:
  jobvault fields              compare both fields with a second implementation
  jobvault times FIELD A B     multiply two codes
  jobvault inverse FIELD A     the inverse of a code
  jobvault cut FILE DIR        cut a file into pieces
";

const PIECES_USAGE: &str = "  jobvault show PIECE ..       what the headers of pieces say
  jobvault candidates ..       what m - 1 pieces leave open of a column
";

const HELP_AND_EXAMPLES: &str = "  jobvault help [VERB]         this text, or more on a verb

FIELD is gf256 or mod257; A and B are codes, decimal (87) or hexadecimal (0x57).

examples:
  jobvault times gf256 0x57 0x83
  jobvault inverse mod257 2
  jobvault cut plan.txt pieces
";

const FIELDS_EXAMPLE: &str = "  jobvault help fields
";

const PIECES_EXAMPLES: &str = "  jobvault show pieces/plan.txt.01
  jobvault help candidates
";

const FIELDS: &str = "usage: jobvault fields

Compares every product and every inverse of both fields with a second implementation, written another way,
and both with the products that FIPS 197 publishes. Prints how much was compared and how much differs, and
ends with status 1 if anything does: a wrong row of a table of inverses is noticed here.

example:
  jobvault fields
";

const TIMES: &str = "usage: jobvault times FIELD A B

Multiplies two codes of a field.
  gf256     GF(2^8) with the polynomial x^8 + x^4 + x^3 + x + 1; codes 0 to 255 (0x0 to 0xff)
  mod257    the integers modulo 257; codes 0 to 256 (0x0 to 0x100)

examples:
  jobvault times gf256 0x57 0x83
  jobvault times mod257 16 241
";

const INVERSE: &str = "usage: jobvault inverse FIELD A

The code whose product with A is 1. 0 has none.
  gf256     GF(2^8) with the polynomial x^8 + x^4 + x^3 + x + 1; codes 0 to 255 (0x0 to 0xff)
  mod257    the integers modulo 257; codes 0 to 256 (0x0 to 0x100)

examples:
  jobvault inverse gf256 0x53
  jobvault inverse mod257 2
";

const CUT: &str = "usage: jobvault cut [OPTION ..] FILE DIR

Cuts a job, the bytes of FILE (at most 4,096; - is standard input), into N pieces, of which any M bring it back. Writes
them to DIR/NAME.01, DIR/NAME.02 and so on, where NAME is the last part of FILE, or stdin. DIR has to be there. A file
that is there already is never written over: then nothing is written. Each piece is written to a file that ends .part
first, and renamed when it is whole; if a piece cannot be written, those before it are removed.
  --field FIELD    gf256 (if not given) or mod257
  --rows ROWS      cauchy (if not given) or vandermonde
  --need M         how many pieces bring the job back: 1 to 16 (10 if not given)
  --of N           how many pieces there are: M to 32 (14 if not given)
  --job NUMBER     the job's number, written into each piece: 0 to 65,535 (1 if not given)
  --stamp S        tells versions of a job apart, written into each piece: 0 to 4,294,967,295 (1 if not given)
Options stand before or after the names, as --need 10 or --need=10; after -- every word is a name. Of an option that is
given twice the last counts. Numbers are decimal or hexadecimal (0x57).

examples:
  jobvault cut plan.txt pieces
  jobvault cut --need 2 --of=3 --job 7 --stamp 0x10 plan.txt pieces
";

const SHOW: &str = "usage: jobvault show PIECE ..

Prints one line for each file that is a piece: its name, the field, the rows, how many pieces of how many bring the job
back, the piece's number, the job's length, the job's number, the stamp, how many columns there are and how many bytes
the body has. A file that is no piece is refused on standard error with the refusal's number, the reason and the byte
where it was found; a file that cannot be read is named there too. The others are still shown, and the status is then 1.
Every word is the name of a file.

examples:
  jobvault show pieces/plan.txt.01
  jobvault show pieces/plan.txt.01 pieces/plan.txt.02
";

const CANDIDATES: &str = "usage: jobvault candidates --column K --place J [--value V] PIECE ..

Shows what m - 1 pieces leave open, where m pieces bring the job back. Prints, for each value of a byte, the one column
that has this value at the place J and gives the symbols that the pieces have in the column K. So the pieces fit every
value there. The pieces are m - 1 different ones of one job, cut with Cauchy rows.
  --column K    the column, counted from 0
  --place J     the place in the column, 1 to m
  --value V     only the column for this value, 0 to 255
A line has the value and then the m symbols of the column, the first place first, all hexadecimal.
A note comes first where hiding is not claimed: in the field mod257 a candidate may hold 256, which is no byte, and a last
column that zeros fill up has symbols that are known. Of a job that one piece brings back (m = 1) there is nothing to show:
no piece would be needed, so none says how the job is cut, and any piece tells the job.
Options stand before or after the names, as --column 2 or --column=2; after -- every word is a name. Of an option that is
given twice the last counts. Numbers are decimal or hexadecimal (0x57).

examples:
  jobvault candidates --column 0 --place 1 pieces/plan.txt.01
  jobvault candidates --column 0 --place 2 --value 0x41 pieces/plan.txt.01 pieces/plan.txt.03
";

const HELP: &str = "usage: jobvault help [VERB]

Lists the verbs, or says more on one: ";

const HELP_END: &str = ". The same as --help and -h.

examples:
  jobvault help
  jobvault help times
";
