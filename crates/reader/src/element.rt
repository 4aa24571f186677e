// What is done with a token: it is placed, or turns the text back.
ghost use Rattle.std.specs.Prelude.{◌≡◌, ◌≤◌, length, Ok};
ghost use Rattle.words.specs.Limits.{name_length_most};
ghost use Rattle.words.specs.Parts.{part};
ghost use Rattle.lexer.specs.declared.token.Token.TheVariants.{Name};
ghost use Rattle.lexer.specs.Told.{meaning_in};
ghost use Rattle.reader.specs.Code.Placed.{Sound, NamesSound, NamePut, NumberKind, Taken};

use crate::names::{bucket_of, enter, find};
use crate::place::{Place, close_list, open_list, put_token};
use datum::kinds;
use lexer::token::{Lexeme, Token};
use words::ground::Ground;
use words::signed::to_word;

// A name, by the number it has or the next one.
fn put_name(
    items: &mut [u32],
    names: &mut [u8],
    index: &mut [u16],
    place: Place,
    word: &[u8],
) -> Result<Place, Ground>
    requires sound { Sound place (length items.old) }
    requires names_sound { NamesSound place names.old index.old }
    requires word_len_bound { length word.now ≤ name_length_most }
    ensures { NamePut place word.now items.old items.new names.old names.new index.new result }
{
    let bucket = bucket_of(word);
    let number = find(names, index, place.known, word, bucket);
    if number < place.known {
        return put_token(items, place, kinds::NAME, number as u32, 0, place.known);
    }
    place.begins(number + 1, place.depth)?;
    enter(names, index, number, word, bucket);
    put_token(items, place, kinds::NAME, number as u32, 0, number + 1)
}

// The kind of a number's item: an integer has no places.
fn number_kind(places: u32) -> u32
    ensures { NumberKind places result }
{
    if places == 0 {
        kinds::INTEGER
    } else {
        kinds::DECIMAL
    }
}

// A token, taken.
pub fn take(
    text: &[u8],
    lexeme: Lexeme,
    place: Place,
    items: &mut [u32],
    names: &mut [u8],
    index: &mut [u16],
) -> Result<Place, Ground>
    requires in_text { (lexeme.from ≤ lexeme.next) × (lexeme.next ≤ length text.now) }
    requires short { lexeme.token ≡ Ok Name → length (part lexeme.from lexeme.next text.now) ≤ name_length_most }
    requires sound { Sound place (length items.old) }
    requires names_sound { NamesSound place names.old index.old }
    ensures { Taken (meaning_in text.now lexeme) place items.old items.new names.old names.new index.old index.new result }
{
    match lexeme.token? {
        Token::Open => open_list(items, place),
        Token::Close => close_list(items, place),
        Token::Boolean(b) => {
            put_token(items, place, kinds::BOOLEAN, u32::from(b), 0, place.known)
        }
        Token::Number(n) => {
            let kind = number_kind(n.places);
            put_token(items, place, kind, to_word(n.value), n.places, place.known)
        }
        Token::Name => put_name(items, names, index, place, &text[lexeme.from..lexeme.next]),
    }
}
