//! What the help says of the program and, below its options, of each subcommand.

/// What the program is for, above its subcommands.
pub(crate) const ABOUT: &str = "\
Tells exactly what a pylock.toml installs in an environment, and why

Example:
  $ pylock plan pylock.toml --python 3.12 --platform linux --extra science
  plan 12
  ..

plan prints a line for each package to install. explain prints what becomes of
each entry of the lock, and why. Both are asked for a Python and a platform, or
for the environment in a file, which has the marker variables and the wheel
tags of a Python. Each command has --help; without a command pylock prints its
name and major version.

A terminal is given \\u{HEX} for each character of Unicode's classes Cc, Cf, Zl
and Zp but TAB and LF: these steer it or aren't seen. A file or a pipe gets all
as it is.

Status: 0, an answer; 1, a fault, a finding, a change or a refused text; 2, a
lock, the environment or the command line is refused; 3, standard error says
why it ended early.";

pub(crate) const PLAN: &str = "\
Example, with spaces for the TABs:
  $ pylock plan pylock.toml env.json --extra science --only-binary :all:
  plan 12
  1  acme-service  -  editable  -  .  -  -  -
  ..

Prints plan K and then K lines, one for each package to install. A line has
nine fields with TAB between them: the entry's number, name, version, kind of
source, file name, path or URL, hashes, VCS commit and subdirectory. An absent
field is -. The lines are for programs: a field may hold any character of the
lock but TAB and LF, which are written \\t and \\n. A terminal gets \\u{HEX} for
one that steers it. A URL stands there with the password that it may have.

Where the lock can't be installed so, it prints fault ID, TAB and CODE instead.
ID is the number of the entry at fault, or 0 for the head of the lock. The help
of explain says what CODE means. Standard error tells the reason.

The options count in the order of the list above. Of --only-binary and
--no-binary the last that names a package counts, and :all: names each package.
One that takes NAME or VARIABLE may stand again; a text that begins with - is
given as --extra=TEXT. Tags come from ENV or the target: --set doesn't change
them. --only-binary :all: leaves VCS sources, directories and archives, which
are built all the same. A refused option prints refused, TAB, the option, TAB
and its text.

--only, --except and --no-project leave packages out of a plan that is made:
those that --only doesn't name, those that --except names, and directories that
are editable or the lock's own, of which the path is just . A package that the
lock doesn't have is refused. Standard error counts what is left out.

--python and --platform name a target in place of ENV. PYTHON is such as 3.12
or 3.12.4, with t behind it for the build without the GIL. PLATFORM is one of:
  manylinux_2_N_ARCH  Linux with glibc 2.N; ARCH is such as x86_64 or aarch64
  manylinux2014_ARCH  the same with 2.17; as manylinux2010_ARCH, manylinux1_ARCH
  musllinux_1_N_ARCH  Linux with musl 1.N
  macosx_M_0_ARCH     macOS from 11 on; ARCH is x86_64 or arm64
  macosx_10_N_x86_64  macOS 10.N
  win_amd64           Windows; as win_arm64, win32
  linux               manylinux_2_28_x86_64
  macos               macosx_14_0_arm64
  windows             win_amd64

uv's names are taken too, such as aarch64-manylinux_2_28, x86_64-pc-windows-msvc
or x86_64-unknown-linux-gnu, which is manylinux_2_28_x86_64. A target knows no
platform_release and no platform_version: a marker that reads one is a fault,
marker-unset, and --set gives it.

--format prints what another tool takes, and nothing else. FORM is one of:
  requirements        for pip install --no-deps -r FILE, or uv pip install with
                      these: wheels, sdists and archives, each with one hash
  requirements-local  for a second such run: VCS sources and directories, since
                      pip takes no line without a hash beside one that has one
  sha256sum           for sha256sum -c FILE
  aria2               for aria2c -i FILE
  urls                for wget -i FILE: a URL on each line
  cyclonedx           a bill of materials, as a document of CycloneDX 1.6
  spdx                the same as SPDX 2.3 has it, made at --created TIME

Run the tool in the lock's folder, from which paths are meant:
  $ pylock plan pylock.toml env.json --format requirements-local
  ..
  # plan by pylock
  -e ./.
  acme-protocol @ git+https://git.acme.example/protocol.git@..
  ..

A VCS line is as good as its host: a branch may be named as a commit is. What a
form doesn't hold is left out, and standard error counts it and names the first
of it: of either requirements file what the other has, else what has no file
name, URL or sha256. What the tool could read in another way is refused:
standard error has refused, TAB, format, TAB and the number of the entry.

With requirements, aria2 and urls, --base FROM=TO writes TO in place of FROM at
the beginning of each URL of a file, as for a mirror. FROM is what stands before
the first =, and both end in /. A URL that begins otherwise stays as it is, and
standard error counts those.

With --strict the lock is taken only where audit has none of these findings:
no-packages, name-form, version, wrong-type, marker-extra, no-source,
several-sources, no-hash, no-wheel-name, no-sdist-name, other-name,
other-version. Else it prints findings K and these findings alone, as audit
does, and the status is 2. Other findings, such as readings-differ, it passes.

Status: 0, a plan; 1, a fault, a refused option or a form that can't hold the
plan; 2, the lock, the environment or the command line is refused; 3, a file
can't be read, the output failed or memory ran out.";

pub(crate) const EXPLAIN: &str = "\
Example, with spaces for the TABs:
  $ pylock explain pylock.toml env.json
  head  ok  -
  ..
  7  colorama  0.4.6  skipped  sys_platform == 'win32'
  ..

Judges the head of the lock and each entry for itself, so all faults are seen
at once. The first line is head, ok or a code, and DETAIL. Then each entry has
a line: ID NAME VERSION VERDICT DETAIL. TAB stands between two fields, and an
absent field is -. What may be a secret in a URL is shown as ***. The options
are those of plan, and mean the same.

VERDICT is one of these, and DETAIL is what stands in parentheses:
  skipped           its marker is false (the marker)
  marker-unset      its marker reads a variable without a text (both)
  marker-extra      its marker reads extra, which no lock gives (the marker)
  marker-undefined  its marker has ~= or === where no versions are compared (the
                    marker)
  marker-number     its marker compares a number past 128 bits (the marker)
  python-unknown    the version of Python isn't known (requires-python)
  python-not-met    requires-python doesn't admit the Python (requires-python)
  no-environment    of the head: none of the lock's environments is true
  ambiguous         an earlier entry of its name applies too (its number)
  sources           it has sources of several kinds (the kinds)
  no-file           no file may be taken (its wheels, its sdist and the policy)
  vcs, directory, editable, archive, wheel, sdist
                    what is installed (a file name, or a place; of a wheel its
                    best tag too)

Status: 0, the answer of plan is a plan; 1, it is a fault, or an option is
refused; 2, the lock, the environment or the command line is refused; 3, a file
can't be read, the output failed or memory ran out.";

pub(crate) const SELECT: &str = "\
Example, with spaces for the TABs:
  $ printf 'extra+ science\\nfly\\n' | pylock select pylock.toml env.json
  plan 11
  ..
  plan 12
  ..
  refused 2  command

Prints the answer, as plan does. Then it reads edits as lines from standard
input and answers each: by the answer as it is then, or by refused N, TAB and a
word, where line N is refused and changes nothing. The last answer counts. As
in plan, a URL stands there with the password that it may have.

The edits:
  show                print the answer again
  set NAME VALUE      give a marker variable a text: set python_version 3.12
  unset NAME          leave it without one: unset platform_release
  extra+ NAME         ask for an extra of the lock: extra+ test
  extra- NAME         ask for it no more: extra- test
  group+ NAME         ask for a dependency group of the lock: group+ dev
  group- NAME         ask for it no more: group- dev
  tags TAG TAG ..     wheel tags, the most preferred first: tags py3-none-any
  add ENTRY           one more entry: add {name = \"a\", directory = {path = \"a\"}}
  put ID ENTRY        this entry in place of one: put 1 {name = \"a\"}
  del ID              remove the entry with this number: del 1
  policy NAME POLICY  files of this name, any, wheel or source: policy pip wheel

A target stands in place of ENV as in plan. With --strict the lock is taken as
plan --strict takes it; what an edit adds is not judged so. With --json an
answer is the document of plan --json, and that of a refused line N is
{\"line\":N,\"pylock\":1,\"refused\":[..]}, each on a line.

Status: 0, the last answer is a plan and no line was refused; 1, otherwise;
2, the lock, the environment or the command line is refused; 3, a line on
standard error says why it ended early:
  pylock: file: PATH: WHY  a file can't be read
  pylock: read             a read of standard input failed
  pylock: write            a write to standard output failed
  pylock: input            the input has more than 1,000,000 lines or more than
                           268,435,456 bytes
  pylock: memory           memory ran out";

pub(crate) const MATRIX: &str = "\
Example, with spaces for the TABs:
  $ pylock matrix pylock.toml --python 3.11,3.12 --platform linux,windows
  3.11  linux  plan  11  1,2
  ..

Prints a line for each Python and each platform: what plan answers for that
target. It is PYTHON PLATFORM plan K BUILT, or PYTHON PLATFORM fault ID CODE,
with TAB between two fields. K is how many packages are installed, and BUILT
has the numbers of the entries that are built from source, which are all but
wheels, with a comma between two; it is - where there are none. The help of
explain says what CODE means.

PYTHONS and PLATFORMS are words of --python and --platform as plan takes them,
with a comma between two. Without --python the Pythons are those of 3.10 to 3.14
that the lock's requires-python admits, each by its first release that it
admits. Without --platform the platforms are manylinux_2_28_x86_64,
manylinux_2_28_aarch64, musllinux_1_2_x86_64, musllinux_1_2_aarch64,
macosx_14_0_x86_64, macosx_14_0_arm64 and win_amd64. The options are those of
plan, and hold for each target.

With --json the answer is a document, whose member matrix has an object for each
target.

With --files it prints the files that the targets take, each once, as the
command files prints those of a lock, and --json and --format are as there:
  $ pylock matrix pylock.toml --python 3.12 --group docs --files --format urls
  ..
  https://downloads.acme.example/acme-theme-0.4.2.tar.gz
  ..

A target that has a fault takes none: the others' files are printed, the status
is 1, and standard error names the target and its fault.

Status: 0, a plan for each target; 1, a fault for one, or a refused option, or
a form that can't hold the files, or with --no-build something is built; 2, the
lock, a word of the targets or the command line is refused; 3, a file can't be
read, the output failed or memory ran out.";

pub(crate) const STATUS: &str = "\
Example, with spaces for the TABs:
  $ pylock status pylock.toml env.json --installed installed.json
  install  acme-service  -  -
  keep  acme-protocol  2.1.0  -
  replace  certifi  2025.1.31  2024.12.14
  ..
  keep  pip  25.0  -
  remove  six  1.17.0  -

Prints what is to be done so that an environment has what plan prints: a line
for each package of the plan, and then one for each other project that is
installed. It is STEP NAME VERSION FROM, with TAB between two fields, and an
absent field is -. STEP is one of these:
  install  the package isn't installed
  replace  it is installed in another version, or from elsewhere, and FROM is
           the version that goes
  keep     the project stays
  remove   the project goes: the plan doesn't name it

FILE is what pip list --format json or pip inspect prints in the environment.
The first tells no more than names and versions. The second tells of a project
its direct URL too: then a VCS source has to be of the commit, a directory has
to be installed as the lock says, editable or not, and a file of the hash. What
comes from an index is taken for any file. Of LOCK, ENV and FILE one at most
is -.

pip, setuptools and wheel stay where the plan doesn't name them, unless --exact
is given. The options and a target are those of plan, and so is the line where
the answer is a fault. With --json the answer is a document, whose member done
tells whether nothing is to be done, and steps has an object for each line.

A refused FILE prints installed, TAB and one of the words json, shape, element
and twice; the last two have TAB and the element's place behind them.

Status: 0, nothing is to be done; 1, something is, or the answer is a fault, or
an option is refused; 2, the lock, the environment, FILE or the command line is
refused; 3, a file can't be read, the output failed or memory ran out.";

pub(crate) const CHECK: &str = "\
Example, with spaces for the TABs:
  $ pylock check pylock.toml pyproject.toml env.json
  differences 3
  extra  project.optional-dependencies.plot  plot  project
  version  project.dependencies 2  certifi  2025.1.31
  missing  project.dependencies 4  rich  -

Prints whether a lock is still a project's: whether what plan prints is what
PROJECT asks for. There is a line for each difference, KIND WHERE NAME DETAIL,
with TAB between two fields, and an absent field is -. WHERE is a key of
PROJECT, and of an element of a list its number. KIND is one of these:
  missing  no package of this name is in the plan
  version  its version is another than PROJECT asks for: DETAIL
  python   PROJECT is for a Python that the lock isn't for: DETAIL
  extra    an extra is one of the project or of the lock alone
  group    the same of a dependency group
  unknown  it can't be told: DETAIL says why

What is asked for is what dependencies say, and what the extras and groups say
that the options ask for, where the marker holds. The extras that a requirement
has in brackets don't count: what they bring is the lock's own affair. A lock
that names no extras says nothing of them, nor one without groups of groups.

The options and a target are those of plan, and so is the line where the answer
is a fault. Of LOCK, PROJECT and ENV one at most is -. With --json the answer is
a document, whose member differences has an object for each line.

--matrix judges each target of matrix, and takes no ENV. --python and --platform
are then those of matrix: words with a comma between two, and without them the
same targets as there. A line is PYTHON PLATFORM KIND WHERE NAME DETAIL, and for
what the head of the lock differs in, whatever the target, PYTHON and PLATFORM
are -. A target that has no plan has the line PYTHON PLATFORM fault ID CODE.

A refused PROJECT prints project, TAB and one of the words not-text, toml, type,
requires-python, requirement, name, twice, include, unknown-group and cycle, and
behind most of them the place.

Status: 0, the lock is the project's; 1, something differs, or the answer is a
fault, or an option is refused; 2, the lock, the environment, a word of the
targets, PROJECT or the command line is refused; 3, a file can't be read, the
output failed or memory ran out.";

pub(crate) const SHOW: &str = "\
Example, with spaces for the TABs:
  $ pylock show pylock.toml
  created-by  acme-lock
  requires-python  >=3.9
  ..
  packages  22
  wheel  19
  ..

Prints what a lock says of itself, a line for each of these, with TAB between
two fields. An absent field is -.
  created-by         what made the lock
  requires-python    the Pythons that it is for
  environments       the markers of the environments that it is for
  extras             its extras
  dependency-groups  its dependency groups
  default-groups     those that are installed unless asked otherwise
  packages           how many entries it has
  wheel, sdist, archive, vcs, directory, editable
                     how many entries have sources of this kind

A lock is valid whatever they say. With --json the answer is a document, whose
members have these names.

Status: 0, an answer; 2, the lock or the command line is refused; 3, a file
can't be read, the output failed or memory ran out.";

pub(crate) const FILES: &str = "\
Example:
  $ pylock files pylock.toml
  files 109
  ..

Prints files K and then K lines, one for each source of each entry. A line has
the nine fields of a line of plan: the entry's number, name, version, kind of
source, file name, path or URL, hashes, VCS commit and subdirectory. An absent
field is -. The lines are for programs: a field may hold any character of the
lock but TAB and LF, which are written \\t and \\n. A terminal gets \\u{HEX} for
one that steers it. A URL stands there with the password that it may have. With
--json the answer is a document, in which a file has size and upload-time too,
where the lock has them.

With several locks a line has one field more at its end, the number of the lock,
from 1, and each file stands once, for the first lock that has it. Two files of
one name with different hashes are refused: it prints refused, TAB, files, TAB
and which they are. Of the locks one at most is -.

--only, --except and --no-project leave out what they leave out of a plan, as
the help of plan tells.

--format prints what another tool takes, and nothing else. FORM is one of:
  sha256sum  for sha256sum -c FILE
  aria2      for aria2c -i FILE
  urls       for wget -i FILE: a URL on each line

What has no file name, URL or sha256 where the form wants one is left out, as
VCS sources and directories are; standard error counts it and names the first:
  $ pylock files pylock.toml --format urls
  ..
  https://downloads.acme.example/acme-theme-0.4.2.tar.gz
  ..

What the tool could read in another way is refused: standard error has refused,
TAB, format, TAB and the number of the entry.

With aria2 and urls, --base FROM=TO writes TO in place of FROM at the beginning
of each URL, as for a mirror. FROM is what stands before the first =, and both
end in /. A URL that begins otherwise stays as it is, and standard error counts
those.

Status: 0, the lines; 1, a form that can't hold them, or a refused option; 2, a
lock, two files of one name or the command line is refused; 3, a file can't be
read, the output failed or memory ran out.";

pub(crate) const AUDIT: &str = "\
Example, with spaces for the TABs:
  $ pylock audit audited.toml
  findings 27
  0  -  lock-version  1.1
  ..
  18  s3transfer  secret-in-url  wheels 1 url
  ..

Prints findings K and then K lines, one for each finding: ID NAME FINDING
DETAIL, with TAB between two fields. ID is the entry's number, or 0 for the
head of the lock, and an absent field is -. A lock with findings is valid all
the same.

FINDING is one of these:
  lock-version        the lock's version isn't 1.0
  unknown-key         PEP 751 doesn't name the key
  wrong-type          the key has another type than PEP 751 gives it
  no-packages         the key packages is absent
  name-form           the name, or an extra of the lock, isn't in normal form
  version             the version is none by PEP 440
  marker-extra        the marker reads extra, so it is a fault everywhere
  readings-differ     the marker compares a variable other than Python's version
                      in a way that installers read as texts or as versions
  undeclared-name     the marker asks for an extra or a group that the lock
                      doesn't declare
  no-source           the entry has no source
  several-sources     the entry has sources of several kinds
  no-hash             an archive, a wheel or an sdist has no hash
  weak-hash           it has hashes, and none is of a strong algorithm
  odd-hash            a hash has a , or a = in it
  bad-hash            a hash isn't of its algorithm's number of 0 to 9, a to f
  no-wheel-name       the file name of a wheel is absent or can't be read
  no-sdist-name       the file name of an sdist is absent or can't be read
  other-name          a file is of another package
  other-version       a file is of another version
  same-file-name      an earlier wheel of the entry has the file name
  unsafe-file-name    the file name of a wheel or an sdist has a /, a \\ or a
                      control character, or is . or ..
  outside-path        a path is absolute, begins with a drive or a share of
                      Windows, or climbs out of the folder of the lock
  unsafe-subdirectory the path begins with / or \\, has : as its second
                      character, or has .. as a part
  not-https           a URL, or the index, isn't of https, nor that of a VCS
                      by ssh
  credentials         a URL, or the index, has an @ in front of its host; one of
                      ssh only where a password stands there
  secret-in-url       the query of a URL has a password, a token or the like
  moving-commit       a commit of git or hg isn't a full hash
  control-character   a text has a control character

DETAIL shows as *** what stands between a slash and the last @ before the next
/, and each value of a query; control characters as \\u{..}.

With --environments it also looks at every environment that the lock is for, by
its environments and requires-python, and finds these too:
  clash               the entry and an earlier one of its name both apply in an
                      environment
  may-clash           they may: that they never do wasn't shown
  never               the entry applies in no environment
  may-never           it may apply in none: that it does wasn't shown
  narrower-python     in an environment its marker is true or absent, and its
                      requires-python doesn't admit the Python
  may-be-narrower     it may be so: that it never is wasn't shown

DETAIL is then the number of the earlier entry, and of clash the options that
set the environment, or the version of the Python. What takes too long isn't
worked out, so it is told by a finding with may.

--advisories reads a file in OSV's format, as PyPI's advisories have it: one
JSON object, an array of them, or one on each line. --host names a host that
sources may be on. They find these too:
  vulnerable          an advisory affects the entry at its version; DETAIL is
                      its id, the ids of the same elsewhere, and the version to
                      go to
  other-host          the URL of a source names none of the hosts

--ignore FINDING leaves a finding out, and --ignore FINDING:NAME that of one
package; the first line is then findings K ignored N. With --fail-on the status
tells of the findings that it names alone. --config reads the keys environments,
fail-on, host and ignore of the table tool.pylock.audit of a pyproject.toml,
which count as the options do; --fail-on counts in place of fail-on there.

--format prints what another tool takes, and nothing else. FORM is one of:
  sarif               a document of SARIF 2.1.0, which code hosts show beside the
                      lines of the lock

Status: 0, nothing was found, or nothing that fails the audit; 1, something was;
2, the lock, a file read besides or the command line is refused; 3, a file can't
be read, the output failed or memory ran out.";

pub(crate) const DIFF: &str = "\
Example, with spaces for the TABs:
  $ pylock diff pylock.toml audited.toml
  changes ..
  head  environments  sys_platform == 'linux',..
  head  extras  science  socks
  ..
  removed  acme-service  \\-  -
  ..

Prints changes K and then K lines, one for each change: CHANGE NAME FROM TO,
with TAB between two fields. An absent field is -. CHANGE is one of these, and
what stands in parentheses is told of both locks:
  head            a key of the lock's head changed; NAME is the key (its texts,
                  or its value as TOML)
  added, removed  one lock alone has the package (its versions)
  version         other versions (these)
  hash            a file has other hashes under the same name (the file, the
                  algorithm and the hashes)
  file            one lock alone has the file or source (this)
  place           a file comes from another place (the places)
  condition       other markers or other Pythons (these)
  key             another key of an entry, or of a file in it, has another value
                  (the key and its values as TOML)

Where nothing is printed but changes 0, both hold the same lock: the same head
but for created-by, and the same entries with all their keys. The order of
entries and keys doesn't count, nor how TOML writes them. FROM and TO hide what
audit hides, so they may be alike.

With --in or a target, and then with the options of plan too, the plans of the
locks are compared in their place: what a machine would see of the change.
Where one is a fault, the one line is fault, -, and of both plans ID CODE or -.

Status: 0, nothing changed; 1, something did, or an option is refused; 2, a
lock, the environment or the command line is refused; 3, a file can't be read,
the output failed or memory ran out.";

pub(crate) const ENVIRONMENT: &str = "\
Example:
  $ pylock environment --python 3.12 --platform linux
  {\"environment\":{..

Prints the environment of a target, in the form of ENV: the values that marker
variables have there, and the tags of the wheels that CPython's installers take
there, the most preferred first. The help of plan says what PYTHON and PLATFORM
may be. Of another text it prints environment, TAB and python or platform, and
standard error says what is taken.

Status: 0, an environment; 2, PYTHON, PLATFORM or the command line is refused;
3, the output failed or memory ran out.";

pub(crate) const VERSION: &str = "\
Example:
  $ pylock version v1.0-RC.1
  1.0rc1

Prints the normal form, or refused, TAB and one of the words syntax and number.
With --json the answer is a document:
  $ pylock version v1.0-RC.1 --json
  {\"pylock\":1,\"version\":\"1.0rc1\"}

Status: 0, it is a version; 1, it is refused; 2, the command line is refused;
3, the output failed or memory ran out.";

pub(crate) const MATCH: &str = "\
Example:
  $ pylock match '>=2.8.1, ==2.8.*' 2.8.3
  true

Prints true or false, or refused, TAB and one of the words set-syntax,
set-number, version-syntax and version-number. Of a refused set standard error
says what was expected, and where. With --json the answer is a document:
  $ pylock match '>=2.8.1, ==2.8.*' 2.8.3 --json
  {\"match\":true,\"pylock\":1}

Status: 0, an answer; 1, a text is refused; 2, the command line is refused;
3, the output failed or memory ran out.";

pub(crate) const NAME: &str = "\
Example:
  $ pylock name Foo__Bar
  foo-bar

Prints the normal form, or refused, TAB and the word name. With --json the
answer is a document:
  $ pylock name Foo__Bar --json
  {\"name\":\"foo-bar\",\"pylock\":1}

Status: 0, it is a name; 1, it is refused; 2, the command line is refused;
3, the output failed or memory ran out.";

pub(crate) const MARKER: &str = "\
Example:
  $ pylock marker 'os_name == \"posix\"' env.json
  true

Prints true or false, with no extra and no group asked for; or fault, TAB and
one of the codes marker-unset, marker-extra, marker-undefined and
marker-number, which the help of explain tells; or refused, TAB and one of the
words too-deep, syntax and set-misuse; or the refusal of the environment, as
select does. Of a refused marker standard error says what was expected, and
where. A target stands in place of ENV as in plan. With --json the answer is a
document:
  $ pylock marker 'os_name == \"nt\"' --python 3.12 --platform windows --json
  {\"marker\":true,\"pylock\":1}

Status: 0, an answer; 1, a fault or a refused text; 2, the environment or the
command line is refused; 3, a file can't be read, the output failed or memory
ran out.";

pub(crate) const REQUIREMENT: &str = "\
Example, with spaces for the TABs:
  $ pylock requirement 'requests[security] >= 2.8.1'
  requests  security  >=2.8.1  -  -

Prints name, extras, specifier set, URL and marker, with TAB between two; an
absent part is -. Or prints refused, TAB and one of the words name, extras,
specifier, url, marker and trailing, and on standard error what was expected,
and where. With --json the answer is a document whose member requirement has
these parts by name.

Status: 0, it is a requirement; 1, it is refused; 2, the command line is
refused; 3, the output failed or memory ran out.";

pub(crate) const WHEEL: &str = "\
Example, with spaces for the TABs:
  $ pylock wheel numpy-2.2.1-cp312-cp312-win_amd64.whl
  numpy  2.2.1  -  cp312-cp312-win_amd64

Prints name, version, build and tags, with TAB between two; an absent build is
-. Or prints refused, TAB and one of the words extension, parts, name, version,
build and tags. With --json the answer is a document whose member wheel has
these parts by name, the tags as a list.

Status: 0, it is the name of a wheel; 1, it is refused; 2, the command line is
refused; 3, the output failed or memory ran out.";

pub(crate) const SDIST: &str = "\
Example, with a space for the TAB:
  $ pylock sdist Foo.Bar-1.0.tar.gz
  foo-bar 1.0

Prints the name in its normal form and the version, with TAB between them. Or
prints refused, TAB and one of the words extension, parts, name and version.
With --json the answer is a document:
  $ pylock sdist Foo.Bar-1.0.tar.gz --json
  {\"pylock\":1,\"sdist\":{\"name\":\"foo-bar\",\"version\":\"1.0\"}}

Status: 0, it is the name of an sdist; 1, it is refused; 2, the command line is
refused; 3, the output failed or memory ran out.";
