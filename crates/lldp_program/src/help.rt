//! The texts of the program's help, except those of its options. No line is longer than 80 columns.

pub const VERSION: &str = "1.0.0";

pub const ABOUT: &str =
    "Runs an LLDP agent over a trace: reads received frames, seconds and commands
from standard input or from connections, and writes the frames to send and the
answers to the commands.

Give 1 to 64 ports, each a name of 1 to 15 letters, digits, -, _, / and :.";

pub const USAGE: &str = "lldpa [OPTIONS] PORT...";

pub const MORE: &str = "Lines of a trace:
  tick                                     one second passes
  tick N                                   N seconds pass, 1 to 65535
  rx PORT HEX                              a frame was received
  up PORT, down PORT                       a link came up or went down
  show neighbors                           the neighbors of each port
  show statistics                          the counters of each port
  show chassis                             what the agent announces
  show configuration                       settings and the status of each port
  configure system hostname TEXT           up to 255 printable characters, in
                                           quotes if it has spaces
  configure system description TEXT        the same
  configure lldp tx-interval N             seconds between frames, 1 to 3600
                                           [default: 30]
  configure lldp tx-hold N                 intervals that peers keep a frame,
                                           1 to 100 [default: 4]
  configure lldp max-neighbors N           1 to the number of --max-neighbors
  configure ports PORT lldp status STATUS  rx-and-tx, rx-only, tx-only, disabled
  update                                   each port sends its frame again
  # TEXT                                   a comment

Examples:
  printf 'tick\\nshow statistics\\n' | lldpa eth0
  lldpa --receive-only --max-neighbors 4 eth0 eth1 < trace.txt
  lldpa --listen 4711 --connections 10 eth0
                                           talk to it with nc 127.0.0.1 4711

See lldpa(1) for all forms of lines, the output, the error messages and the exit
statuses.";
