//! Where a target leads.

ghost use Rattle.std.specs.Prelude.{◌≡◌};
ghost use Rattle.qz_wire.specs.Words.{parts_at};
ghost use Rattle.qz_http.specs.Routes.{one_parameter, report_below, report_named, two_parameters, way_of, IsPath};

use qz_wire::{after, cut};

/// What a target names. Another one leads nowhere. Parameters have a byte and no slash.
#[derive(Clone, Copy)]
pub enum Path<'b> {
    Nowhere,
    /// `/api/ask`.
    Ask,
    /// `/entry/{entry}/{version}`.
    Entry { entry: &'b [u8], version: &'b [u8] },
    /// `/attempt/{attempt}`.
    Page(&'b [u8]),
    /// `/quiz/{quiz}/grades.txt`.
    TextReport(&'b [u8]),
    /// `/quiz/{quiz}/grades.csv`.
    CsvReport(&'b [u8]),
}

fn two_parameters<'b>(rest: &'b [u8]) -> Path<'b>
    ensures { IsPath (two_parameters (parts_at 47 rest.now)) result }
{
    let Some((entry, version)) = cut(rest, b'/') else {
        return Path::Nowhere;
    };
    if let Some(_) = cut(version, b'/') {
        return Path::Nowhere;
    }
    if entry.is_empty() || version.is_empty() {
        Path::Nowhere
    } else {
        Path::Entry { entry, version }
    }
}

fn one_parameter<'b>(rest: &'b [u8]) -> Path<'b>
    ensures { IsPath (one_parameter (parts_at 47 rest.now)) result }
{
    if let Some(_) = cut(rest, b'/') {
        return Path::Nowhere;
    }
    if rest.is_empty() {
        Path::Nowhere
    } else {
        Path::Page(rest)
    }
}

fn report_named<'b>(name: &[u8], quiz: &'b [u8]) -> Path<'b>
    ensures { IsPath (report_named name.now quiz.now) result }
{
    if name == b"grades.txt".as_slice() {
        Path::TextReport(quiz)
    } else if name == b"grades.csv".as_slice() {
        Path::CsvReport(quiz)
    } else {
        Path::Nowhere
    }
}

fn report_below<'b>(rest: &'b [u8]) -> Path<'b>
    ensures { IsPath (report_below (parts_at 47 rest.now)) result }
{
    let Some((quiz, name)) = cut(rest, b'/') else {
        return Path::Nowhere;
    };
    if let Some(_) = cut(name, b'/') {
        return Path::Nowhere;
    }
    if quiz.is_empty() {
        Path::Nowhere
    } else {
        report_named(name, quiz)
    }
}

/// The path of a target, which is taken as it stands, without decoding.
pub fn path_in<'b>(target: &'b [u8]) -> Path<'b>
    ensures { IsPath (way_of target.now) result }
{
    if target == b"/api/ask".as_slice() {
        return Path::Ask;
    }
    if let Some(rest) = after(target, b"/entry/") {
        return two_parameters(rest);
    }
    if let Some(rest) = after(target, b"/attempt/") {
        return one_parameter(rest);
    }
    match after(target, b"/quiz/") {
        Some(rest) => report_below(rest),
        None => Path::Nowhere,
    }
}
