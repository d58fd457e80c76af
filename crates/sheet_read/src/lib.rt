// Reading a whole sheet: its length, what stands above the rules, and the rules. Whether its graph has a cycle is told by the crate above.
#![tactic(auto)]

ghost use Rattle.std.specs.Prelude.{◌≡◌, replicate};
ghost use Rattle.meaning.specs.Limits.{sheet_bytes};
ghost use Rattle.meaning.specs.Reading.{paper};
ghost use Rattle.meaning.specs.ReadSheet.{sheet};
ghost use Rattle.limits.specs.Sizes.{word_room};
ghost use Rattle.sheet_read.specs.Answers.{as_sheet_read, words_read, Begun};

use reply::{Fault, Wrong};
use sheet_section::Above;
use sheet_tables::{Heads, Rules};

// The tables and the rules.
#[derive(Clone, Copy)]
pub struct SheetRead {
    pub heads: Heads,
    pub rules: Rules,
}

// The sheet but for its graph, or its refusal. The words of its conditions are put into `words`, which is blank, and stays so where the sheet is refused.
pub fn read_sheet(s: &[u8], words: &mut [u64; limits::WORDS]) -> Result<SheetRead, Wrong>
    requires { words.old ≡ replicate word_room 0 }
    ensures answer { result ≡ as_sheet_read (paper 1 sheet_bytes sheet s.now) }
    ensures space { words.new ≡ words_read (paper 1 sheet_bytes sheet s.now) }
{
    if limits::SHEET_BYTES < s.len() {
        return Err(Wrong {
            fault: Fault::Long,
            line: 0,
        });
    }
    let above = sheet_heads::read_heads(s)?;
    read_below(s, above, words)
}

// The sheet, by what was read above its rules, or the refusal of its rules.
fn read_below(s: &[u8], above: Above, words: &mut [u64; limits::WORDS]) -> Result<SheetRead, Wrong>
    requires { Begun s.now above words.old }
    ensures answer { result ≡ as_sheet_read (paper 1 sheet_bytes sheet s.now) }
    ensures space { words.new ≡ words_read (paper 1 sheet_bytes sheet s.now) }
{
    let heads = above.heads;
    let read = sheet_rules::read_rules(
        text::rest(s, above.at),
        &heads.names,
        heads.fields,
        heads.events,
        heads.stages + heads.miles,
        words,
    );
    match read {
        Ok(rules) => Ok(SheetRead { heads, rules }),
        Err(wrong) => Err(Wrong {
            fault: wrong.fault,
            line: above.line + wrong.line,
        }),
    }
}
