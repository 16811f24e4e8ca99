//! What is printed of the words: the version, and the texts of help.

/// The version, the commit that the program was built of, and the logic of the kit that it was proved with. The program can't know its own commit:
/// what makes a package writes it over the forty characters behind the word, in the program that was built.
pub(crate) const VERSION: &str = "\
0.1.0
commit unknown, since this build has no package
kit logic dac8208d650f15bf";

/// What stands below the list of words.
pub(crate) const EXAMPLES: &str = "\
Examples:
  kmip_audit check transcript.ttlv declaration.ttlv witness.ttlv
  kmip_audit search transcript.ttlv declaration.ttlv witness.ttlv
  kmip_audit judge transcript.ttlv
  kmip_audit chain days
  kmip_audit show transcript.ttlv
  kmip_audit write digits.txt items.ttlv

Status: 0 yes, found, explained, shown or written; 1 no, or convicted; 2 a file is refused;
  3 a device failed or memory ran out; 4 a search gave up, or a judging hasn't decided; 64 wrong words";

pub(crate) const CHECK_HELP: &str = "\
Example:
  kmip_audit check transcript.ttlv declaration.ttlv witness.ttlv
  kmip_audit check transcript.ttlv declaration.ttlv witness.ttlv --explain
  kmip_audit check monday.ttlv declaration.ttlv witness.ttlv --leaves tuesday_declaration.ttlv

With --explain stands behind the lines of a no what its reason rests on, a line for each claim, and behind that of a
message outside what is judged each field that makes it so. With --json one JSON object stands in place of all lines, and
with both it has the claims as members. Neither goes together with --leaves or --not-before.

With --seconds it gives up at the next read of a file once N seconds are over since it began, unless N is 0, and prints
'gave up: 0 steps' and 'not decided: N seconds are over'. Nothing is told by that. A verdict that is printed is what it is
without.

At a yes, and only then, --leaves writes the declaration with which the audit of the next segment goes on, and prints
'left: N entries, last stamp DATE'. That DATE is the --not-before of the next segment: a first turn that is earlier is
a no by reason 2. A date is written as 2023-11-14T22:13:20Z or as a number of seconds since 1970.

Of a sealed transcript the last line behind a verdict is 'sealed: RECORDING segment N head HEX'. Where --head gives
another head, or the transcript bears no seals, 'head: HEX, expected HEX' stands in place of the verdict.

A sealed transcript without its close, as a killed recorder leaves it, is refused. With --torn it is judged up to its last
whole record, and ' torn' stands behind HEX; where part of a record is left out, ' torn after N bytes'.

Status: 0 yes; 1 no; 2 a file is refused; 3 a device failed or memory ran out; 4 the seconds are over; 64 wrong words";

pub(crate) const SEARCH_HELP: &str = "\
Example:
  kmip_audit search transcript.ttlv declaration.ttlv witness.ttlv --budget 5000000
  kmip_audit search transcript.ttlv declaration.ttlv witness.ttlv --explain
  kmip_audit search monday.ttlv declaration.ttlv witness.ttlv --leaves tuesday_declaration.ttlv

It prints 'yes: N steps' and writes the witness to OUT, or 'gave up: N steps' and writes nothing. A step is one call
that is tried. A transcript is plain where no call lacks its end, no message leaves the order of its items open and no
undone answer hides what a witness would have to give. Where a plain transcript is given up with steps left, no order
explains it.

With --seconds it gives up, too, once N seconds are over since it began, unless N is 0. Nothing is told by that, whatever
steps are left, and what it finds ahead of it is what it finds without.

With --explain stands behind the line of a giving up whether that has decided, and if not, why: the budget is used up,
the seconds are over, or which calls are not plain; and behind that of a message outside what is judged each field that
makes it so. With --json one JSON object stands in place of all lines, and has the same as members, with or without
--explain. Neither goes together with --leaves or --not-before.

With --open a call without its end is taken where an answer needs what it did, and a batch without order in other
orders than by place. Of a plain transcript nothing changes; of another one nothing is told by giving up.

At a yes --leaves also writes the declaration with which the audit of the next segment goes on, and prints 'left: N
entries, last stamp DATE'; both files are written, or neither is. That DATE is the --not-before of the next segment: no
order that takes a call at an earlier stamp is one, so an answered call that is earlier has it give up.

Of a sealed transcript the last line behind an answer is 'sealed: RECORDING segment N head HEX'. Where --head gives
another head, or the transcript bears no seals, 'head: HEX, expected HEX' stands in its place, and nothing is written.

A sealed transcript without its close, as a killed recorder leaves it, is refused. With --torn it is searched up to its
last whole record, and ' torn' stands behind HEX; where part of a record is left out, ' torn after N bytes'.

Where standard error is a terminal, a long search tells there once a second how far it got, unless --quiet is given.

Status: 0 found; 2 a file is refused; 3 a device failed or memory ran out; 4 gave up; 64 wrong words";

pub(crate) const JUDGE_HELP: &str = "\
Example:
  kmip_audit judge transcript.ttlv
  kmip_audit judge transcript.ttlv declaration.ttlv --witness witness.ttlv --declaration used.ttlv

It looks for an order of the calls, as search does, and where an answer is impossible wherever it looked it sets that item
aside, tells it, and goes on behind it. The first line is

  explained                        an order explains every answer that is judged
  convicted: N findings            N answers are impossible, and no order explains every answer
  suspected: N findings            N answers are impossible in the orders that were tried
  undecided: N findings, S steps   the budget is used up, or the seconds are over
  nothing judged                   no item is judged

For each finding follow 'finding K: turn T call C item I why N NAME' and 'at DATE', as check prints them of a no. Item 0 is
the whole call. The last line says how many items are judged: 'judged: J of M items; set aside: R by request, P by answer,
W by witness, O by object'. Where the seconds are over it is 'not decided: N seconds are over'.

Without DECLARATION nothing is known of the server: 'assumed: nothing is declared' is the second line, and an object is
judged from where the recording shows it born. A server may hide objects from some clients: where clients of two or more
names made the calls, nobody is convicted without a declaration. Up to a blank or a slash a client's text is its name.
Where one rule of a server explains every answer, 'explained with: RULE' stands behind the findings.

What isn't judged is set aside, also where the declaration would end a check there. At every first line but undecided,
--witness writes the order with all that is set aside, and --declaration the declaration that was used: with these check
accepts the recording but for the findings.

Of a sealed transcript the last line behind an answer is 'sealed: RECORDING segment N head HEX'. Where --head gives
another head, or the transcript bears no seals, 'head: HEX, expected HEX' stands in its place, and nothing is written.
With --torn a sealed transcript without its close is judged up to its last whole record.

With --json one JSON object stands in place of all lines, and says the same.

With --seconds it ends once N seconds are over since it began, unless N is 0. Where standard error is a terminal, a long
search tells there once a second how far it got, unless --quiet is given.

Status: 0 explained; 1 convicted; 2 a file is refused; 3 a device failed or memory ran out; 4 suspected, undecided or
  nothing judged; 64 wrong words";

pub(crate) const CHAIN_HELP: &str = "\
Example:
  kmip_audit chain days
  kmip_audit chain days --budget 5000000 --leaves next-declaration.ttlv
  kmip_audit chain days --witnesses judged

The segments of DIR are its files transcript*.ttlv, in the order of their names, byte by byte. The first goes on from
declaration.ttlv, and each other one from what those before it leave and from their last stamp on. A segment is checked
by its witness, the file witness*.ttlv with the same text in the place of *, and where there is none it is searched, with
at most N steps. For each it prints the name of the transcript and the lines that check or search print; the first that
is no yes ends it. A declaration that the server was asked for, declaration*.ttlv with the text of the segment that it
stands ahead of, is held against what is left by then, and the first object that differs ends it too. Behind the last it
prints 'chain: N segments, N calls; left: N entries, last stamp DATE', and only then --leaves writes the declaration of
what the whole leaves.

With --seconds the whole gives up once N seconds are over since it began, unless N is 0: in the search of a segment, or
ahead of the next segment, for which it then prints 'gave up: 0 steps'.

--witnesses writes the witness by which each segment is a yes, the one that was found or the one that was given, into
FOLDER, which has to be there: witness*.ttlv, with the text of its transcript. Each is written ahead of the segment's
line. So behind a no, a difference or a giving up those of the segments ahead of it were written, and no others.

Status: 0 all yes; 1 no, or an object differs; 2 a file is refused; 3 a device failed or memory ran out;
  4 a search gave up; 64 wrong words";

pub(crate) const SHOW_HELP: &str = "\
Example:
  kmip_audit show transcript.ttlv --messages --notes

Status: 0 shown; 2 the file is refused; 3 a device failed or memory ran out; 64 wrong words";

pub(crate) const WRITE_HELP: &str = "\
Example:
  kmip_audit write digits.txt items.ttlv

Status: 0 written; 2 the digits are refused; 3 a device failed or memory ran out; 64 wrong words";
