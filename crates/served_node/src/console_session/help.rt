//! What a client may write.

/// Each command with a line.
pub const HELP: &[u8] = b"\
help                      these lines
?                         these lines, too
show links                each link: its state, and since when; messages that wait; last numbers
show routes               each destination: the status of its routes, the sets taken, and all sets
show titles               the translation rows
show subsystems           the subsystems at other points that are prohibited
show notices              the last 64 notices
show flags                how often a message may have been lost, or flows gone out of order
show losses               the messages named as lost, and how often that wasn't known for sure
show reroutings           how often a flow changed its link set, but away from its destination's own
show counters             what passed on each link since the start: counter NAME LINK VALUE
show version              the version of the program
show capture              each link: whether it is captured
show alarms               the alarms that are raised, and since when, in seconds after the start
show timers               each timer: how many ticks it runs, and how many seconds these are
show sets                 each link set: where it leads, and how many of its links are in service
show link LINK            all that is known of the link, a fact a line
show settings             the settings as they are now, as a file; without [serve] and sockets
submit HEX                a user part submits a message: its SIO, then its SIF
activate LINK             the link may open; activate LINK emergency: with emergency proving
deactivate LINK           the link goes out of service, and stays out
release LINK              the link may open though its changeover order isn't answered
title add T P N DIGITS POINT ROUTE SSN
                          a translation row is added; behind SSN perhaps backup POINT, then perhaps
                          changed PLAN NATURE REMOVE ADD
title set ..              the same, but it replaces a row of the same T P N DIGITS
title remove T P N DIGITS a translation row is removed
test title T P N DIGITS   which row translates the title, and where it leads; nothing changes
users                     from now on each message for this point: local LINK HEX
watch                     from now on each notice as it falls
watch frames              from now on each frame in words
capture start             from now on all links are captured; capture start LINK: that one, too
capture stop              from now on no link is captured; capture stop LINK: that one isn't
quit                      this connection ends once its answers are written
stop                      the node closes its connections and ends
";
