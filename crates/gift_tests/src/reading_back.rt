//! Texts of every kind of question, read and then written in their canonical form.

use gift_read::{GiftFault, read};
use gift_write::spell;
use qz_text::NoMemory;
use std::alloc::Global;
use std::test::Fail;

/// The canonical text of a bank as a Moodle site exports it.
const EXPORTED: &str = "$CATEGORY: $course$/top/Week 1\n\
\n\
::Capital::[html]<p>Capital of France?</p>{\n\
\t=Paris#Yes\n\
\t~Lyon#No\n\
\t~%50%Paris area\n\
\t####See page 4\n\
}\n\
\n";

/// The canonical text of what a text is read as, or its fault.
fn canonical(alloc: Global, text: &str) -> Result<String, NoMemory> {
    match read(alloc, text.as_bytes()) {
        Ok(bank) => {
            let text = spell(alloc, &bank)?;
            Ok(String::from_str(alloc, text.as_str())?)
        }
        Err(GiftFault::Malformed { line, rule }) => Ok(format!(in alloc; "{line} {rule}")?),
        Err(GiftFault::Memory) => Err(NoMemory),
    }
}

// ---- texts, each with its canonical text

// What the manual shows of each kind, with other questions.
const BY_HAND: [(&str, &str); 15] = [
    (
        "Now come three sums.",
        "::Now come three sums.::Now come three sums.\n\n",
    ),
    (
        "::Tides:: Why are there two a day? {####The moon pulls.}",
        "::Tides::Why are there two a day?{\n\t####The moon pulls.\n}\n\n",
    ),
    (
        "Oslo is in Norway.{T}",
        "::Oslo is in Norway.::Oslo is in Norway.{TRUE}\n\n",
    ),
    (
        "// on the sky\n::Moon::The moon is a star.{FALSE#It only shines back.#Right!####Chapter 2}",
        "::Moon::The moon is a star.{FALSE#It only shines back.#Right!####Chapter 2}\n\n",
    ),
    (
        "Sure? {F##Well\\: yes}",
        "::Sure?::Sure?{FALSE##Well\\: yes}\n\n",
    ),
    (
        "Water boils {~above =at ~below} 100 degrees.",
        "::Water boils _____ 100 degrees.::Water boils _____ 100 degrees.{\n\t~above\n\t=at\n\t~below\n}\n\n",
    ),
    (
        "Which are prime? {~%-100%four ~%50%five#Yes ~%50.0%seven ~%-33.33333%nine}",
        "::Which are prime?::Which are prime?{\n\t~%-100%four\n\t~%50%five#Yes\n\t~%50%seven\n\t~%-33.33333%nine\n}\n\n",
    ),
    (
        "Which is 5? {~ \\= 2 + 2 = \\= 2 + 3#\\#1 = 5 ~%0%%x}",
        "::Which is 5?::Which is 5?{\n\t~\\= 2 + 2\n\t=\\= 2 + 3#\\#1\n\t~%100%5\n\t~%0%%x\n}\n\n",
    ),
    (
        "Two plus two {=four =%50%4.\\#0#close} and more",
        "::Two plus two _____ and more::Two plus two _____ and more{\n\t=four\n\t=%50%4.\\#0#close\n}\n\n",
    ),
    (
        "Match{\n=[plain]a -> b\n= -> c\n=d->e->f\n}",
        "::Match::Match{\n\t=[plain]a -> b\n\t= -> c\n\t=d -> e->f\n}\n\n",
    ),
    (
        "When did they land? {#=1969:0#Yes =%50%+1969.50 : 2#Nearly ~#No}",
        "::When did they land?::When did they land?{#\n\t=1969#Yes\n\t=%50%1969.5:2#Nearly\n\t=%0%*#No\n}\n\n",
    ),
    ("Pi {#3.141..3.142}", "::Pi::Pi{#\n\t=3.141..3.142\n}\n\n"),
    ("{#-1.5e1}", "::Question::{#\n\t=-15\n}\n\n"),
    (
        "[markdown]*Thanks*{~[html]a#[moodle]b ~[c]}",
        "::*Thanks*::[markdown]*Thanks*{\n\t~[html]a#[moodle]b\n\t~[markdown][c]\n}\n\n",
    ),
    (
        "$CATEGORY: a//b/c\nx\\ny\n\n$CATEGORY:Default\n  {}\n\nz",
        "$CATEGORY: a//b/c\n\n::x y::x\\ny\n\n$CATEGORY: Default\n\n::Question::{}\n\n::z::z\n\n",
    ),
];

// Other letters, and other ends of lines.
const LETTERS: [(&str, &str); 4] = [
    ("", ""),
    (
        "\u{feff}Où est Zürich ?\r\n{=en Suisse~à Paris\\: non\u{1f600}}\r\rÉté{}\n",
        "::Où est Zürich ?::Où est Zürich ?{\n\t=en Suisse\n\t~à Paris\\: non\u{1f600}\n}\n\n::Été::Été{}\n\n",
    ),
    (
        "שלום\r\n עולם{T#לא#כן}",
        "::שלום עולם::שלום\\n עולם{TRUE#לא#כן}\n\n",
    ),
    (
        "\u{1f600}\u{3000}\u{feff}{=*}",
        "::\u{1f600}\u{3000}\u{feff}::\u{1f600}\u{3000}\u{feff}{\n\t=*\n}\n\n",
    ),
];

#[test]
fn reads_texts(rt: HostRuntime) -> Result<(), Fail> {
    let alloc = rt.alloc();
    let exported = [(EXPORTED, EXPORTED)];
    for rows in [exported.as_slice(), BY_HAND.as_slice(), LETTERS.as_slice()] {
        for (text, want) in rows {
            assert_eq!(rt; canonical(alloc, text)?.as_str(), *want, "{text:?}");
            assert_eq!(rt; canonical(alloc, want)?.as_str(), *want, "{text:?}");
        }
    }
    Ok(())
}
