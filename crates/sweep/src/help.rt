// What --help prints: one text, so that it is written whole or the failure is said once.
use console::print;
use std::rt::HostRuntime;

pub fn help(rt: &HostRuntime) {
    print(
        rt,
        b"Usage: sweep [FILE]
       sweep --help
       sweep --version

Answers a query file: FILE, or standard input where none is named. For each
pair of shapes and one step of motion it says: clear, or when is the first
contact. It takes 65,536 bytes, and searches with a queue of 4,096 words.

It prints a line for each record, then one line TOTAL. Of a file that is
refused it prints the line FILE alone.

  ID WORD T U V EXCESS COUNT
  ID REFUSED N
  TOTAL RECORDS MET A CLEAR B SPENT C ROOM D FLOOR E REFUSED F
  FILE N

T is a part of the step, U and V are a place, all in 1/1048576. EXCESS is in
1/8 mm, beyond the separation. COUNT is how many boxes were checked.

  CLEAR   no contact in the step, or up to the record's cap
  MET     no contact before T; within the tolerance of one then
  SPENT   no contact before T; the budget ended
  ROOM    no contact before T; the queue was full
  FLOOR   no contact before T; boxes cannot be split

N is the number of a refusal. A record is refused for

   1 KIND        the kind is not 1 (vertex-face) or 2 (edge-edge)
   2 FLAGS       a flag above bit 0 is set, or a byte that must be 0 is not
   3 COORD       a coordinate is outside the range of the edition
   4 SEPARATION  a separation is above 65,536
   5 TOLERANCE   the tolerance is outside the range of the edition
   6 BUDGET      the budget is 0 or above 1,000,000
  22 CAP         the cap is above 1,048,576

and a file for

   8 SHORT       it has under 16 bytes
   9 MARK        its trailer does not begin with QEND
  10 EDITION     its edition is not 1, 2 or 3, or a byte behind that is not 0
  11 COUNT       it has more than 4,096 records
  12 BACK        its records do not lie where the trailer says
  15 LONG        it has over 65,536 bytes; looked at before all others

The library gives these too, sweep never: 7 QUEUE (a queue outside its
range), 13 INDEX (no such record), 14 SPACE (no room to write).

There is no exit status. Output that does not end with a TOTAL or FILE line
is incomplete; standard error then says why.
",
        b"sweep: the help cannot be written to standard output",
    );
}
