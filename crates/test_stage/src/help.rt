//! The verbs.

/// The verbs, by what they are for; README says what each answers.
pub(crate) const HELP: &str = "HELLO 1 | HELP
files: FILE name bytes | NEW name model cylinders | FORMAT name model cylinders | LENGTH model cylinders
  FAIL name n [ON] | CALLS name | CONTENT name [at n] | PUT name at bytes
a channel: BEGIN number size | VOLUME uu model name.. | DETACH uu | EXCHANGE uu name.. | SWAP | END | FINISH
  SIO uuu | TIO uuu | HIO uuu | TCH | INT | STEP n | RUN n | ARRIVE uuu | RESET | STORE at hex | KEY at k | SHOW at n
  CALL SIO|TIO|HIO|ARRIVE uuuu | POKE at bytes | PEEK at n | KEYOF at | RUNON n
  STATE | PENDING | VIEW | REGISTERS | UNIT uu | IMAGE uu
decks: DECK LINE text | BYTES bytes | PARSE | EVENTS | RUN | COUNTED | TRACE | DRIVE | SERIAL
  DECK READS n fails | WRITES n room FAILS|NONE | FLUSH | WRITTEN | CALLS
a drive: DRIVE MOUNT name.. | PROGRAM | CLEAR | BEGIN code | LOOK | GIVE n | NEXT n | TAKE bytes | WHOLE | ONCE | END | SETTLE
  DRIVE PHASE | STATE | REGISTERS | SLOT | RELEASE
a program: PROGRAM START caw | ADVANCE n | RUN n | CUT | TAKE | ASKED | VIEW
storage: STORAGE NEW size | SIZE | PUT at bytes | PEEK at n | FROM at n | BYTE at | KEY at k | KEYOF at
  STORAGE CAW | CCW at | CSW csw | STATUS unit channel | STORABLE at n k | STORE at bytes k
an image: MOUNT name.. | MOUNT1 name | LOAD track | SAVE track bytes | RELEASE
a slot: SLOT bytes | PARTS | INDEX | INDEXED | USED model | FITS model after kl dl | HOME bytes
  RECORD model after count areas | ZEROS at n | DATA record bytes | BODY record bytes | NEXT kind position
  MODEL model | TRACK model cylinders c h | CHARGE model kl dl
tables: CAW word | CCW ccw | CSW csw | DECODE code | MASK mask code | SENSE name.. | SEARCH how area comparand
  EXPLAIN CSW|CCW|SENSE bytes
channels: CHANNELS BEGIN size | ADD n | HAS n | VOLUME uuuu name.. | DETACH uuuu | EXCHANGE uuuu name.. | REMOVE n | END
  CHANNELS SIO|TIO|HIO|TCH|ARRIVE uuuu | STEP n units | RUN n units | STEPALL units | RESET n | RESETALL
  CHANNELS INT mask | INTAT n | PENDING mask | PENDINGAT n | FIRST mask | STATE n | VIEW n | UNIT uuuu | IMAGE uuuu
  CHANNELS POKE at bytes | PEEK at n | KEY at k | KEYOF at";
