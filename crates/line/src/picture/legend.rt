// What every picture begins with: its looks, and the legend at its foot.
// The opening of the graph. `newrank` puts the reactions of one level side by side through all boxes, `compound` lets an arrow end at a box.
pub(crate) const HEAD: &str = "digraph station {\n\
    graph [rankdir=LR newrank=true compound=true nodesep=0.25 ranksep=0.7 \
    fontname=\"Helvetica\" fontsize=11 labelloc=b];\n\
    node [fontname=\"Helvetica\" fontsize=11 margin=\"0.1,0.05\"];\n\
    edge [fontname=\"Helvetica\" fontsize=9];\n\
    label=<<table border='1' cellborder='0' cellspacing='2' cellpadding='3' \
    color='#a0a0a0'>\n\
    <tr><td border='1' bgcolor='#dae8fc' color='#404040'>reaction</td>\
    <td align='right'><font color='#000000'>&#9472;&#9472;&#9654;</font></td>\
    <td align='left'>triggers a reaction of that level; from a reaction: writes a port</td>\
    <td align='right'><font color='#d00000'>&#9476;&#9476;&#9654;</font></td>\
    <td align='left'><font color='#d00000'>never scheduled: the port that is written triggers nothing</font></td></tr>\n\
    <tr><td border='1' bgcolor='#fff2cc' color='#404040'>port</td>\
    <td align='right'><font color='#606060'>&#9476;&#9476;&#9654;</font></td>\
    <td align='left'>a reaction reads a port, or may schedule an action</td>\
    <td align='right'><font color='#d08000'>&#9476;&#9476;&#9654;</font></td>\
    <td align='left'>only read: the port that is written triggers nothing</td></tr>\n\
    <tr><td border='1' bgcolor='#e8f5e0' color='#404040'>action, timer</td>\
    <td align='right'><font color='#606060'>&#183;&#183;&#183;&#183;&#9654;</font></td>\
    <td align='left'>at start, at stop, or on the reset, startup or shutdown of a scope</td>\
    <td align='right'><font color='#d00000'>&#9473;&#9473;&#9654;</font></td>\
    <td align='left'><font color='#d00000'>refused N: the row of the first fault</font></td></tr>\n\
    <tr><td border='1' bgcolor='#f3ecf7' color='#9673a6'>scope of a mode</td>\
    <td align='right'><font color='#9673a6'>&#9473;&#9473;&#9654;</font></td>\
    <td align='left'>changes to a mode, by reset or by its history</td>\
    <td border='1' bgcolor='#ffe0e0' color='#d00000'>ports[41]: missing</td>\
    <td align='left'>a row that is named and is not there</td></tr>\n\
    <tr><td border='1' bgcolor='#f0f0f0' color='#606060'>reactor</td>\
    <td align='right'><font color='#006060'>&#9473;&#9473;&#9654;</font></td>\
    <td align='left'>a route from or to another station</td>\
    <td align='right'><font color='#d00000'>&#9476;&#9476;&#9654;</font></td>\
    <td align='left'>with a field's name: names a row that is not there, or a parent in a circle</td></tr>\n\
    <tr><td border='1' color='#b0b0b0'>scope</td>\
    <td align='right'>level 2</td>\
    <td align='left'>reactions of a level stand side by side; levels rise from left to right</td>\
    <td border='1' bgcolor='#f3ecf7' color='#9673a6'>mode 1</td>\
    <td align='left'>a mode without a box: the scope that it names does not name it</td></tr>\n\
    </table>>;\n";
