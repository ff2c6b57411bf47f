//! What a line says.
ghost use Rattle.std.specs.Prelude.{◌≡◌, Ok, MatchResult};
ghost use Rattle.std.specs.Option.{option_copied};
ghost use Rattle.ldm_class.specs.Rules.{allow_rule};
ghost use Rattle.ldm_conf.specs.Confs as confs;
ghost use Rattle.ldm_conf.specs.Statements.{statement_of, said, adding, feed_of, allowing};
ghost use Rattle.ldm_conf.specs.Statements.{accepting, requesting, asking_at, executing, including};
ghost use Rattle.ldm_conf.specs.Kept.{lent};
ghost use Rattle.ldm_conf.specs.LineFaults.{IsKindOf};
ghost use Rattle.ldm_conf.specs.DirectiveViews.{statement_view};

use crate::addresses::read_address;
use crate::command::{read_command, text_of};
use crate::directive::{Directive, Statement};
use crate::fault::ConfKind;
use crate::keyword::Keyword;
use crate::lines::without_return;
use crate::transfer::Transfer;
use crate::words::read_words;
use arrayvec::ArrayVec;
use ldm_feedtype::read_feed;
use ldm_text::{Comments, first_word, to_word};
use ldm_types::Feed;

/// What a line says. Its patterns are not looked at.
pub fn read_statement(line: &[u8]) -> Result<Statement<'_>, ConfKind>
    ensures { MatchResult result (λ statement. statement_of line.now ≡ Ok (statement_view statement))
        (IsKindOf (statement_of line.now)) }
{
    let text = to_word(Comments::Hash, without_return(line));
    if text.is_empty() {
        return Ok(Statement::Blank);
    }
    let Some((keyword, behind)) = first_word(Comments::Hash, text) else {
        return Err(ConfKind::Fields);
    };
    let Some(keyword) = Keyword::of_name(keyword) else {
        return Err(ConfKind::Keyword);
    };
    let Ok(words) = read_words(behind) else {
        return Err(ConfKind::Fields);
    };
    read_words_of(keyword, words.as_slice())
}

// What a line says by the words behind its keyword.
fn read_words_of<'a>(keyword: Keyword, words: &[&'a [u8]]) -> Result<Statement<'a>, ConfKind>
    ensures { let meaning = said keyword (lent words.now) in MatchResult result
        (λ statement. meaning ≡ Ok (statement_view statement)) (IsKindOf meaning) }
{
    match keyword {
        Keyword::Allow => read_allow(words),
        Keyword::Accept => read_accept(words),
        Keyword::Request => read_request(words),
        Keyword::Exec => read_exec(words),
        Keyword::Include => read_include(words),
    }
}

fn read_allow<'a>(words: &[&'a [u8]]) -> Result<Statement<'a>, ConfKind>
    ensures { let meaning = allowing (lent words.now) in MatchResult result
        (λ statement. meaning ≡ Ok (statement_view statement)) (IsKindOf meaning) }
{
    match words {
        [feedtype, host] => allow(feedtype, host, None, None),
        [feedtype, host, ok] => allow(feedtype, host, Some(*ok), None),
        [feedtype, host, ok, not] => allow(feedtype, host, Some(*ok), Some(*not)),
        _ => Err(ConfKind::Fields),
    }
}

fn allow<'a>(
    feedtype: &[u8],
    host: &'a [u8],
    ok: Option<&'a [u8]>,
    not: Option<&'a [u8]>,
) -> Result<Statement<'a>, ConfKind>
    ensures { let meaning = adding feedtype.now
        (λ feed. confs.Allow (allow_rule feed host.now (option_copied ok.entry) (option_copied not.entry))) in
        MatchResult result (λ statement. meaning ≡ Ok (statement_view statement)) (IsKindOf meaning) }
{
    let feed = read_feedtype(feedtype)?;
    Ok(Statement::Adds(Directive::Allow {
        feed,
        host,
        ok,
        not,
    }))
}

fn read_accept<'a>(words: &[&'a [u8]]) -> Result<Statement<'a>, ConfKind>
    ensures { let meaning = accepting (lent words.now) in MatchResult result
        (λ statement. meaning ≡ Ok (statement_view statement)) (IsKindOf meaning) }
{
    let [feedtype, pattern, host] = words else {
        return Err(ConfKind::Fields);
    };
    let feed = read_feedtype(feedtype)?;
    Ok(Statement::Adds(Directive::Accept {
        feed,
        pattern: *pattern,
        host: *host,
    }))
}

fn read_request<'a>(words: &[&'a [u8]]) -> Result<Statement<'a>, ConfKind>
    ensures { let meaning = requesting (lent words.now) in MatchResult result
        (λ statement. meaning ≡ Ok (statement_view statement)) (IsKindOf meaning) }
{
    match words {
        [feedtype, pattern, address] => request(feedtype, pattern, address, Transfer::Alternate),
        [feedtype, pattern, address, transfer] => {
            let Some(transfer) = Transfer::of_name(transfer) else {
                return Err(ConfKind::Fields);
            };
            request(feedtype, pattern, address, transfer)
        }
        _ => Err(ConfKind::Fields),
    }
}

fn request<'a>(
    feedtype: &[u8],
    pattern: &[u8],
    address: &[u8],
    transfer: Transfer,
) -> Result<Statement<'a>, ConfKind>
    ensures { let meaning = asking_at feedtype.now pattern.now address.now transfer in MatchResult result
        (λ statement. meaning ≡ Ok (statement_view statement)) (IsKindOf meaning) }
{
    let Some(address) = read_address(address) else {
        return Err(ConfKind::Fields);
    };
    let Ok(pattern) = ArrayVec::try_from(pattern) else {
        return Err(ConfKind::Fields);
    };
    let feed = read_feedtype(feedtype)?;
    Ok(Statement::Adds(Directive::Request {
        feed,
        pattern,
        address,
        transfer,
    }))
}

fn read_exec<'a>(words: &[&'a [u8]]) -> Result<Statement<'a>, ConfKind>
    ensures { let meaning = executing (lent words.now) in MatchResult result
        (λ statement. meaning ≡ Ok (statement_view statement)) (IsKindOf meaning) }
{
    let [command] = words else {
        return Err(ConfKind::Fields);
    };
    match read_command(command) {
        Some(command) => Ok(Statement::Adds(Directive::Exec { command })),
        None => Err(ConfKind::Fields),
    }
}

fn read_include<'a>(words: &[&'a [u8]]) -> Result<Statement<'a>, ConfKind>
    ensures { let meaning = including (lent words.now) in MatchResult result
        (λ statement. meaning ≡ Ok (statement_view statement)) (IsKindOf meaning) }
{
    let [path] = words else {
        return Err(ConfKind::Fields);
    };
    match text_of(path) {
        Some(path) => Ok(Statement::Includes(path)),
        None => Err(ConfKind::Fields),
    }
}

fn read_feedtype(word: &[u8]) -> Result<Feed, ConfKind>
    ensures { MatchResult result (λ feed. feed_of word.now ≡ Ok feed.0) (IsKindOf (feed_of word.now)) }
{
    match read_feed(word) {
        Ok(feed) => Ok(feed),
        Err(_) => Err(ConfKind::Feed),
    }
}
