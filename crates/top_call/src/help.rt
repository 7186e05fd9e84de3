//! What `--help` prints, and help on a command.
ghost use Rattle.std.specs.Prelude.{◌≡◌};
ghost use Rattle.command_line.specs.declared.tasks.CommandName.{CommandName};
ghost use Rattle.top_call.specs.Help.{help_page, page_on};

use command_line::CommandName;

// A line ends with `\n\`; a blank at the beginning of a line is written `\x20`, since blanks after `\` are passed over.
const HELP: &[u8] = b"\
    lkb: typed feature structure grammars in DELPH-IN TDL\n\
    \n\
    Commands:\n\
    \x20 parse GRAMMAR          for each line of the input the number of its packed classes, and all its trees\n\
    \x20 chart GRAMMAR          for each line of the input the words that no entry covers, and its packed classes\n\
    \x20 explain GRAMMAR        for each tree of the input whether it is licensed, and if not, where it fails and why\n\
    \x20 generate GRAMMAR       for each MRS of the input the number of its packed classes, and all its sentences\n\
    \x20 types GRAMMAR          the completed types, each with its immediate supertypes\n\
    \x20 check GRAMMAR          one line that counts types, features, entries, rules and roots\n\
    \x20 expand GRAMMAR NAME    the structure of a type, entry, rule or root: a line for each path\n\
    \x20 self-test NUMBER SIZE  the workload of NUMBER with SIZE lines (1 to 1000), parsed and summed up in a line\n\
    \x20 batch GRAMMAR PROFILE  each item of a profile compared with what the grammar gives, and a summary\n\
    \x20 scope                  for each MRS of the input the number of its scoped readings, and all of them\n\
    \x20 transfer RULES         for each MRS of the input what the rules of RULES make of it, and in how many steps\n\
    \x20 --help, --version      this text (COMMAND --help: the lines of COMMAND); the version\n\
    \n\
    GRAMMAR is the top file of a grammar; .tdl is added to a name without an ending. PROFILE and RULES are files, as they are\n\
    named.\n\
    \n\
    Options, in any order after the command, each with its default:\n\
    \x20 --settings NAME  a file of settings (each setting's default)\n\
    \x20 --edges N        the most packed classes of a line, 1 to 20000 (5000)\n\
    \x20 --readings N     the most trees of a line, or the most readings of an MRS, 1 to 100000 (10000)\n\
    \x20 --lexical N      the most lexical rules over an entry, 0 to 15 (7)\n\
    \x20 --unary N        the most unary rules one over another, 0 to 32 (8)\n\
    \x20 --empty N        the most words without a predicate in a generated sentence, 0 to 16 (4)\n\
    \x20 --workers N      how many workers answer lines, 1 to 64 (1); no answer depends on it\n\
    \x20 --lattice        each line writes a lattice, FROM:TO:WORD for each step (a line is its words)\n\
    \x20 --mrs            each tree that is listed or licensed is followed by its MRS (no MRSs)\n\
    \x20 --verbose        tells where and why files have a fault, and, in parse, the unknown words of lines without a tree (neither)\n\
    \n\
    Every command takes every option and heeds those that concern it.\n\
    \n\
    Status: 0 all was done; 2 the words are outside the form; 3 the command's files have a fault; 4 a line was\n\
    refused or isn't in its form, a tree isn't licensed, an item of a profile differs or is bad, or NAME stands\n\
    for nothing; 5 the input failed or a line is too long; 6 the output failed; 7 memory was wanting\n\
";

/// What each command and option does, and the default of each option.
pub fn help_text() -> &'static [u8]
    ensures { result.now ≡ help_page }
{
    HELP
}

// Help on each command.
const PARSE: &[u8] = b"\
    \x20 parse GRAMMAR          for each line of the input the number of its packed classes, and all its trees\n\
    \x20 --settings NAME  a file of settings (each setting's default)\n\
    \x20 --edges N        the most packed classes of a line, 1 to 20000 (5000)\n\
    \x20 --readings N     the most trees of a line, or the most readings of an MRS, 1 to 100000 (10000)\n\
    \x20 --lexical N      the most lexical rules over an entry, 0 to 15 (7)\n\
    \x20 --unary N        the most unary rules one over another, 0 to 32 (8)\n\
    \x20 --workers N      how many workers answer lines, 1 to 64 (1); no answer depends on it\n\
    \x20 --lattice        each line writes a lattice, FROM:TO:WORD for each step (a line is its words)\n\
    \x20 --mrs            each tree that is listed or licensed is followed by its MRS (no MRSs)\n\
    \x20 --verbose        tells where and why files have a fault, and, in parse, the unknown words of lines without a tree (neither)\n\
";

const CHART: &[u8] = b"\
    \x20 chart GRAMMAR          for each line of the input the words that no entry covers, and its packed classes\n\
    \x20 --settings NAME  a file of settings (each setting's default)\n\
    \x20 --edges N        the most packed classes of a line, 1 to 20000 (5000)\n\
    \x20 --lexical N      the most lexical rules over an entry, 0 to 15 (7)\n\
    \x20 --unary N        the most unary rules one over another, 0 to 32 (8)\n\
    \x20 --workers N      how many workers answer lines, 1 to 64 (1); no answer depends on it\n\
    \x20 --lattice        each line writes a lattice, FROM:TO:WORD for each step (a line is its words)\n\
    \x20 --verbose        tells where and why files have a fault, and, in parse, the unknown words of lines without a tree (neither)\n\
";

const EXPLAIN: &[u8] = b"\
    \x20 explain GRAMMAR        for each tree of the input whether it is licensed, and if not, where it fails and why\n\
    \x20 --settings NAME  a file of settings (each setting's default)\n\
    \x20 --workers N      how many workers answer lines, 1 to 64 (1); no answer depends on it\n\
    \x20 --mrs            each tree that is listed or licensed is followed by its MRS (no MRSs)\n\
    \x20 --verbose        tells where and why files have a fault, and, in parse, the unknown words of lines without a tree (neither)\n\
";

const GENERATE: &[u8] = b"\
    \x20 generate GRAMMAR       for each MRS of the input the number of its packed classes, and all its sentences\n\
    \x20 --settings NAME  a file of settings (each setting's default)\n\
    \x20 --edges N        the most packed classes of a line, 1 to 20000 (5000)\n\
    \x20 --readings N     the most trees of a line, or the most readings of an MRS, 1 to 100000 (10000)\n\
    \x20 --lexical N      the most lexical rules over an entry, 0 to 15 (7)\n\
    \x20 --unary N        the most unary rules one over another, 0 to 32 (8)\n\
    \x20 --empty N        the most words without a predicate in a generated sentence, 0 to 16 (4)\n\
    \x20 --workers N      how many workers answer lines, 1 to 64 (1); no answer depends on it\n\
    \x20 --verbose        tells where and why files have a fault, and, in parse, the unknown words of lines without a tree (neither)\n\
";

const TYPES: &[u8] = b"\
    \x20 types GRAMMAR          the completed types, each with its immediate supertypes\n\
    \x20 --settings NAME  a file of settings (each setting's default)\n\
    \x20 --verbose        tells where and why files have a fault, and, in parse, the unknown words of lines without a tree (neither)\n\
";

const CHECK: &[u8] = b"\
    \x20 check GRAMMAR          one line that counts types, features, entries, rules and roots\n\
    \x20 --settings NAME  a file of settings (each setting's default)\n\
    \x20 --verbose        tells where and why files have a fault, and, in parse, the unknown words of lines without a tree (neither)\n\
";

const EXPAND: &[u8] = b"\
    \x20 expand GRAMMAR NAME    the structure of a type, entry, rule or root: a line for each path\n\
    \x20 --settings NAME  a file of settings (each setting's default)\n\
    \x20 --verbose        tells where and why files have a fault, and, in parse, the unknown words of lines without a tree (neither)\n\
";

const SELF_TEST: &[u8] = b"\
    \x20 self-test NUMBER SIZE  the workload of NUMBER with SIZE lines (1 to 1000), parsed and summed up in a line\n\
    \x20 --edges N        the most packed classes of a line, 1 to 20000 (5000)\n\
    \x20 --readings N     the most trees of a line, or the most readings of an MRS, 1 to 100000 (10000)\n\
    \x20 --lexical N      the most lexical rules over an entry, 0 to 15 (7)\n\
    \x20 --unary N        the most unary rules one over another, 0 to 32 (8)\n\
    \x20 --workers N      how many workers answer lines, 1 to 64 (1); no answer depends on it\n\
";

const BATCH: &[u8] = b"\
    \x20 batch GRAMMAR PROFILE  each item of a profile compared with what the grammar gives, and a summary\n\
    \x20 --settings NAME  a file of settings (each setting's default)\n\
    \x20 --edges N        the most packed classes of a line, 1 to 20000 (5000)\n\
    \x20 --readings N     the most trees of a line, or the most readings of an MRS, 1 to 100000 (10000)\n\
    \x20 --lexical N      the most lexical rules over an entry, 0 to 15 (7)\n\
    \x20 --unary N        the most unary rules one over another, 0 to 32 (8)\n\
    \x20 --workers N      how many workers answer lines, 1 to 64 (1); no answer depends on it\n\
    \x20 --verbose        tells where and why files have a fault, and, in parse, the unknown words of lines without a tree (neither)\n\
";

const SCOPE: &[u8] = b"\
    \x20 scope                  for each MRS of the input the number of its scoped readings, and all of them\n\
    \x20 --readings N     the most trees of a line, or the most readings of an MRS, 1 to 100000 (10000)\n\
    \x20 --workers N      how many workers answer lines, 1 to 64 (1); no answer depends on it\n\
";

const TRANSFER: &[u8] = b"\
    \x20 transfer RULES         for each MRS of the input what the rules of RULES make of it, and in how many steps\n\
    \x20 --settings NAME  a file of settings (each setting's default)\n\
    \x20 --workers N      how many workers answer lines, 1 to 64 (1); no answer depends on it\n\
    \x20 --verbose        tells where and why files have a fault, and, in parse, the unknown words of lines without a tree (neither)\n\
";

// Help on `parse`.
fn on_parse() -> &'static [u8]
    ensures { result.now ≡ page_on CommandName.Parse }
{
    PARSE
}

// Help on `chart`.
fn on_chart() -> &'static [u8]
    ensures { result.now ≡ page_on CommandName.Chart }
{
    CHART
}

// Help on `explain`.
fn on_explain() -> &'static [u8]
    ensures { result.now ≡ page_on CommandName.Explain }
{
    EXPLAIN
}

// Help on `generate`.
fn on_generate() -> &'static [u8]
    ensures { result.now ≡ page_on CommandName.Generate }
{
    GENERATE
}

// Help on `types`.
fn on_types() -> &'static [u8]
    ensures { result.now ≡ page_on CommandName.Types }
{
    TYPES
}

// Help on `check`.
fn on_check() -> &'static [u8]
    ensures { result.now ≡ page_on CommandName.Check }
{
    CHECK
}

// Help on `expand`.
fn on_expand() -> &'static [u8]
    ensures { result.now ≡ page_on CommandName.Expand }
{
    EXPAND
}

// Help on `self-test`.
fn on_self_test() -> &'static [u8]
    ensures { result.now ≡ page_on CommandName.SelfTest }
{
    SELF_TEST
}

// Help on `batch`.
fn on_batch() -> &'static [u8]
    ensures { result.now ≡ page_on CommandName.Batch }
{
    BATCH
}

// Help on `scope`.
fn on_scope() -> &'static [u8]
    ensures { result.now ≡ page_on CommandName.Scope }
{
    SCOPE
}

// Help on `transfer`.
fn on_transfer() -> &'static [u8]
    ensures { result.now ≡ page_on CommandName.Transfer }
{
    TRANSFER
}

/// How a command is used, what it does, and the options that it heeds.
pub fn text_on(command: CommandName) -> &'static [u8]
    ensures { result.now ≡ page_on command }
{
    match command {
        CommandName::Parse => on_parse(),
        CommandName::Chart => on_chart(),
        CommandName::Explain => on_explain(),
        CommandName::Generate => on_generate(),
        CommandName::Types => on_types(),
        CommandName::Check => on_check(),
        CommandName::Expand => on_expand(),
        CommandName::SelfTest => on_self_test(),
        CommandName::Batch => on_batch(),
        CommandName::Scope => on_scope(),
        CommandName::Transfer => on_transfer(),
    }
}
